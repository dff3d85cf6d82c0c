//! The data of LOC: where something is (RFC 1876).

use crate::parts;
use std::fmt::{self, Display};

/// A size or a precision: so many centimetres, as a digit and a power of ten (RFC 1876 2).
#[derive(Clone, Copy)]
struct Extent {
    centimetres: u64,
    /// Whether the power is a hundred or more, so that the metres are whole.
    is_whole: bool,
}

impl Extent {
    fn read(octet: u8) -> Option<Extent> {
        if octet / 16 > 9 || octet % 16 > 9 {
            return None;
        }
        let mut centimetres = u64::from(octet / 16);
        for _ in 0..octet % 16 {
            centimetres = centimetres.saturating_mul(10);
        }
        let is_whole = octet % 16 > 1;
        Some(Extent {
            centimetres,
            is_whole,
        })
    }
}

/// Centimetres as metres, with two decimals.
fn write_metres<W: fmt::Write>(centimetres: u64, f: &mut fmt::Formatter<W>) -> fmt::Result {
    let metres = centimetres / 100;
    let rest = centimetres % 100;
    write!(f, "{metres}.{rest:02}m")
}

impl Display for Extent {
    fn fmt<W: fmt::Write>(&self, f: &mut fmt::Formatter<W>) -> fmt::Result {
        if !self.is_whole {
            return write_metres(self.centimetres, f);
        }
        let metres = self.centimetres / 100;
        write!(f, "{metres}m")
    }
}

/// An angle, in thousandths of a second above or below 2 to the 31.
#[derive(Clone, Copy)]
struct Angle(u32);

/// Degrees, minutes and seconds, with three decimals.
impl Display for Angle {
    fn fmt<W: fmt::Write>(&self, f: &mut fmt::Formatter<W>) -> fmt::Result {
        let size = self.0.abs_diff(0x8000_0000);
        let degrees = size / 3_600_000;
        let minutes = size / 60_000 % 60;
        let seconds = size / 1000 % 60;
        let thousandths = size % 1000;
        write!(f, "{degrees} {minutes} {seconds}.{thousandths:03}")
    }
}

/// A height, in centimetres from 100,000 metres below the spheroid on.
#[derive(Clone, Copy)]
struct Height(u32);

impl Display for Height {
    fn fmt<W: fmt::Write>(&self, f: &mut fmt::Formatter<W>) -> fmt::Result {
        if self.0 < 10_000_000 {
            write!(f, "-")?;
        }
        let centimetres = self.0.abs_diff(10_000_000);
        write_metres(u64::from(centimetres), f)
    }
}

#[derive(Clone, Copy)]
pub(crate) struct Location {
    size: Extent,
    across: Extent,
    upward: Extent,
    latitude: u32,
    longitude: u32,
    height: Height,
}

impl Location {
    /// Version 0, whose extents are of decimal digits.
    pub(crate) fn read(data: &[u8]) -> Option<Location> {
        let [0, size, across, upward, rest @ ..] = data else {
            return None;
        };
        let (latitude, rest) = parts::u32_front(rest)?;
        let (longitude, rest) = parts::u32_front(rest)?;
        let (height, rest) = parts::u32_front(rest)?;
        if !rest.is_empty() {
            return None;
        }
        let size = Extent::read(*size)?;
        let across = Extent::read(*across)?;
        let upward = Extent::read(*upward)?;
        Some(Location {
            size,
            across,
            upward,
            latitude,
            longitude,
            height: Height(height),
        })
    }
}

impl Display for Location {
    fn fmt<W: fmt::Write>(&self, f: &mut fmt::Formatter<W>) -> fmt::Result {
        let latitude = Angle(self.latitude);
        let longitude = Angle(self.longitude);
        let north = if self.latitude < 0x8000_0000 {
            'S'
        } else {
            'N'
        };
        let east = if self.longitude < 0x8000_0000 {
            'W'
        } else {
            'E'
        };
        write!(f, "{latitude} {north} {longitude} {east}")?;
        let height = self.height;
        let size = self.size;
        let across = self.across;
        let upward = self.upward;
        write!(f, " {height} {size} {across} {upward}")
    }
}
