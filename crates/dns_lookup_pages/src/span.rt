//! Lengths of time in words and in units.

use std::fmt::{self, Display};

/// So many seconds, in weeks, days, hours, minutes and seconds.
#[derive(Clone, Copy)]
pub(crate) struct Span(pub(crate) u32);

/// Writes a part of a span behind the parts before it, and says whether one stands there now.
fn write_part<W: fmt::Write>(
    count: u32,
    unit: &str,
    is_begun: bool,
    f: &mut fmt::Formatter<W>,
) -> Result<bool, fmt::Error> {
    if count == 0 {
        return Ok(is_begun);
    }
    if is_begun {
        f.write_str(" ")?;
    }
    write!(f, "{count} {unit}")?;
    if count > 1 {
        f.write_str("s")?;
    }
    Ok(true)
}

impl Display for Span {
    fn fmt<W: fmt::Write>(&self, f: &mut fmt::Formatter<W>) -> fmt::Result {
        let seconds = self.0;
        let mut is_begun = write_part(seconds / 604_800, "week", false, f)?;
        is_begun = write_part(seconds / 86_400 % 7, "day", is_begun, f)?;
        is_begun = write_part(seconds / 3600 % 24, "hour", is_begun, f)?;
        is_begun = write_part(seconds / 60 % 60, "minute", is_begun, f)?;
        is_begun = write_part(seconds % 60, "second", is_begun, f)?;
        if is_begun {
            Ok(())
        } else {
            f.write_str("0 seconds")
        }
    }
}

/// So many seconds in the units that a zone file may have, as `1w2d3h4m5s`.
#[derive(Clone, Copy)]
pub(crate) struct Units(pub(crate) u32);

fn write_unit<W: fmt::Write>(count: u32, unit: char, f: &mut fmt::Formatter<W>) -> fmt::Result {
    if count == 0 {
        return Ok(());
    }
    write!(f, "{count}{unit}")
}

impl Display for Units {
    fn fmt<W: fmt::Write>(&self, f: &mut fmt::Formatter<W>) -> fmt::Result {
        let seconds = self.0;
        if seconds == 0 {
            return f.write_str("0s");
        }
        write_unit(seconds / 604_800, 'w', f)?;
        write_unit(seconds / 86_400 % 7, 'd', f)?;
        write_unit(seconds / 3600 % 24, 'h', f)?;
        write_unit(seconds / 60 % 60, 'm', f)?;
        write_unit(seconds % 60, 's', f)
    }
}
