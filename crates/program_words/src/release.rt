//! The release.

ghost use Rattle.std.specs.Prelude.{◌≡◌, IfOk};
ghost use Rattle.std.specs.String.{string_bytes};
ghost use Rattle.program_words.specs.Pages.{version_line};

use dns_values::NoMemory;
use std::alloc::Global;

/// The release of the programs. The man pages and `tools/install` take it from here.
pub const RELEASE: &str = "1.0.0";

/// The sum of the logic that the programs are proved with, as `rt version` tells it.
pub const LOGIC: &str = "dac8208d650f15bf";

/// The line that tells which release of a program this is, and what it was proved with.
pub fn version_line(alloc: Global, program: &str) -> Result<String, NoMemory>
    ensures { IfOk result (λ s. string_bytes s ≡ version_line program.now) }
{
    Ok(format!(in alloc; "{program} {RELEASE} (proved with Rattle's logic {LOGIC})\n")?)
}
