//! Texts that are cut at an octet.

ghost use Rattle.std.specs.Prelude.{◌≡◌, ◌<◌, None, Some, MatchOption, option_map};
ghost use Rattle.zone_text.specs.Words.{behind_last, cut_at};

/// What stands before the first such character, and what stands behind it.
pub(crate) fn cut_at(text: &str, at: char) -> Option<(&str, &str)>
    requires { at < 128 }
    ensures { MatchOption result (cut_at at text.now ≡ None) (λ x. cut_at at text.now ≡ Some (x.0.now, x.1.now)) }
{
    text.split_once(at)
}

/// What stands behind the last such octet, if there is one.
#[tactic(auto, using(crate::proofs::Cuts::none_found, crate::proofs::Cuts::found_here, crate::proofs::Cuts::not_here, crate::proofs::Cuts::all_looked))]
pub(crate) fn behind_last(text: &[u8], octet: u8) -> Option<&[u8]>
    ensures { option_map (λ x. x.now) result ≡ behind_last octet text.now }
{
    let mut found = None;
    let mut rest = text;
    while let [first, behind @ ..] = rest {
        if *first == octet {
            found = Some(behind);
        }
        rest = behind;
    }
    found
}
