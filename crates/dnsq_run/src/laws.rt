//! What holds of every input.

ghost use Rattle.dnsq_run.specs.InputLaws.{InputLaws};

use dns_script::script_laws;
use resolv_conf::line_laws;

/// The laws of inputs: an input that is taken is not refused, one output is written for it, and none where
/// its replay stops for a number.
pub fn input_laws()
    ensures { InputLaws }
{
    script_laws();
    line_laws();
}
