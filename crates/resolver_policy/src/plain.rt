//! The octets of a line that are read.

ghost use Rattle.std.specs.Prelude.{◌≡◌};
ghost use Rattle.resolver_policy.specs.Plain.{is_blank, is_sign, uncommented};

fn is_blank(octet: u8) -> bool
    ensures { result ≡ is_blank octet }
{
    matches!(octet, b' ' | b'\t' | b'\r')
}

fn is_sign(octet: u8) -> bool
    ensures { result ≡ is_sign octet }
{
    matches!(octet, b';' | b'#')
}

/// A line up to its comment, which begins with a semicolon or a number sign that stands first or behind a blank.
pub(crate) fn uncommented(line: &[u8]) -> &[u8]
    ensures { result.now ≡ uncommented line.now }
{
    let mut is_behind_blank = true;
    for (at, octet) in line.iter().enumerate() {
        if is_behind_blank && is_sign(*octet) {
            return &line[..at];
        }
        is_behind_blank = is_blank(*octet);
    }
    line
}
