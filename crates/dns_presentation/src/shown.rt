//! What has a presentation form.

ghost use Rattle.std.specs.Prelude.{◌≡◌, Some};
ghost use Rattle.std.specs.Fmt.{WritesOnOk};
ghost use Rattle.dns_presentation.specs.Records.{question_text, front_text, record_text};

use crate::data::ShownData;
use crate::names::Absolute;
use dns_base::{Message, Question, Record};
use std::fmt::{self, Display};

/// What prints in presentation form.
#[derive(Drop)]
pub struct Shown<'s, T>(pub &'s T);

/// What has a presentation form: records, questions and messages, as `println!("{}", record.presentation())`.
pub trait Presentation {
    /// Itself, for printing.
    fn presentation(&self) -> Shown<'_, Self>
        ensures { result.0.now ≡ self.now };
}

impl Presentation for Record<'_> {
    fn presentation(&self) -> Shown<'_, Self> {
        Shown(self)
    }
}

impl Presentation for Question<'_> {
    fn presentation(&self) -> Shown<'_, Self> {
        Shown(self)
    }
}

impl Presentation for Message {
    fn presentation(&self) -> Shown<'_, Self> {
        Shown(self)
    }
}

/// The owner, the seconds that it may be kept, the class and the type, with a tab behind each.
fn write_front<W: fmt::Write>(shown: &Record<'_>, f: &mut fmt::Formatter<W>) -> fmt::Result
    ensures { WritesOnOk W.Write.write_str_gives f.old result (front_text shown.now.entry) f.new }
{
    let owner = shown.owner();
    let ttl = shown.ttl().0;
    let class = shown.class();
    let rtype = shown.rtype();
    write!(f, "{}\t{ttl}\t{class}\t{rtype}\t", Absolute(&owner))
}

/// The owner, the seconds that it may be kept, the class, the type and the data, with a tab between (RFC 1035 5.1).
impl Display for Shown<'_, Record<'_>> {
    ghost output = { λ s. record_text s.0.now };

    fn fmt<W: fmt::Write>(&self, f: &mut fmt::Formatter<W>) -> fmt::Result {
        write_front(self.0, f)?;
        f.write(ShownData(self.0))
    }
}

/// The name, the class and the type, with tabs between.
impl Display for Shown<'_, Question<'_>> {
    ghost output = { λ s. Some (question_text s.0.now) };

    fn fmt<W: fmt::Write>(&self, f: &mut fmt::Formatter<W>) -> fmt::Result {
        let qname = self.0.qname();
        let qclass = self.0.qclass();
        let qtype = self.0.qtype();
        write!(f, "{}\t\t{qclass}\t{qtype}", Absolute(&qname))
    }
}
