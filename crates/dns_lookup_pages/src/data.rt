//! The data of a record, as a layout has it.

use dns_base::{NoMemory, Record, RecordData};
use dns_lookup_words::Layout;
use dns_presentation::ShownData;
use std::alloc::Global;
use std::fmt::{self, Display};

/// An address of IPv6 with all its digits (RFC 4291 2.2).
#[derive(Clone, Copy)]
struct Expanded([u8; 16]);

impl Display for Expanded {
    fn fmt<W: fmt::Write>(&self, f: &mut fmt::Formatter<W>) -> fmt::Result {
        for at in 0..16 {
            if at > 0 && at % 2 == 0 {
                f.write_str(":")?;
            }
            let high = self.0[at] / 16;
            let low = self.0[at] % 16;
            write!(f, "{high:x}{low:x}")?;
        }
        Ok(())
    }
}

/// The data in presentation form; an address of IPv6 with all its digits, where a layout has them.
pub(crate) fn data_text(
    alloc: Global,
    layout: Layout,
    record: &Record<'_>,
) -> Result<String, NoMemory> {
    match record.data() {
        Ok(RecordData::Aaaa(octets)) if layout.expanded => Ok(Expanded(octets).to_string(alloc)?),
        _ => Ok(ShownData(record).to_string(alloc)?),
    }
}
