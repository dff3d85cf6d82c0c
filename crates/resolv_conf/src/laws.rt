//! What holds of every line and text.

ghost use Rattle.resolv_conf.specs.LineLaws.{LineLaws};

use dns_values::address_laws;

/// The laws of reading: a line makes one thing of a configuration, and a text has one answer, want
/// of memory aside.
pub fn line_laws()
    ensures { LineLaws }
{
    address_laws();
}
