//! Numbers among the words.

ghost use Rattle.std.specs.Prelude.{◌≡◌, ◌≤◌, IfSome};
ghost use Rattle.dns_lookup_words.specs.Numbers.{number_in, number_up_to};
ghost use Rattle.resolv_conf.specs.Number.{number_of};

/// The number that a text writes, where a plus may stand first.
#[tactic(auto, using(resolv_conf::proofs::Numbers::number_is))]
fn number(text: &str) -> Option<usize>
    ensures { result ≡ number_of text.now }
{
    text.parse::<usize>().ok()
}

/// The number up to the greatest that a text writes.
pub(crate) fn number_up_to(most: usize, text: &str) -> Option<usize>
    ensures value { result ≡ number_up_to most text.now }
    ensures range { IfSome result (λ n. n ≤ most) }
{
    let number = number(text)?;
    if most < number { None } else { Some(number) }
}

/// The number from 1 to the greatest that a text writes.
pub(crate) fn number_in(most: usize, text: &str) -> Option<usize>
    ensures value { result ≡ number_in most text.now }
    ensures range { IfSome result (λ n. (1 ≤ n) × (n ≤ most)) }
{
    let number = number(text)?;
    if number == 0 || most < number {
        None
    } else {
        Some(number)
    }
}
