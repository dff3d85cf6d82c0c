//! The command that generates a script and sums up what comes of it.

ghost use Rattle.std.specs.Prelude.{◌≡◌, ◌⊎◌, ◌≤◌, None, IfOk, IfErr, IfSome};
ghost use Rattle.dns_script.specs.Generated.{generated};
ghost use Rattle.dnsq_run.specs.Generating.{IsSummary, count_of};
ghost use Rattle.command_parts.specs.Ends.{IsEarly, line_of, status_of};
ghost use Rattle.dnsq_run.specs.Program.{numbers_line, rows_of};
ghost use Rattle.dnsq_run.specs.QueryWords.{query_of};

use crate::telling::play;
use crate::usage::number_of;
use client_request::{Rows, Trace};
use command_parts::Ending;
use dns_script::{generate, summary_text};
use std::alloc::Global;

/// The greatest count.
const MOST: u16 = 1000;

/// The count of the words `gen N`, which do not hold the program's own name: 1 to 1000.
#[tactic(auto, using(crate::proofs::Generations::no_query))]
pub fn count_of(words: &[String]) -> Option<u32>
    ensures count { result ≡ count_of words.now }
    ensures range { IfSome result (λ n. (1 ≤ n) × (n ≤ 1000)) }
    ensures no_query { IfSome result (λ _. query_of words.now ≡ None) }
{
    match words {
        [word, count] if word.as_bytes() == b"gen".as_slice() => {
            let count = number_of(MOST, count.as_bytes())?;
            if count == 0 { None } else { Some(count as u32) }
        }
        _ => None,
    }
}

/// The summary of the trace of the script that is generated for a count.
pub fn summary(alloc: Global, n: u32) -> Result<Vec<u8>, Ending>
    requires some { 1 ≤ n }
    requires few { n ≤ 1000 }
    ensures summary { IfOk result (λ v. IsSummary n v.items) }
    ensures early { IfErr result IsEarly }
    ensures statuses { IfErr result (λ e. (status_of e ≡ 6) ⊎ (status_of e ≡ 7)) }
    ensures numbers { IfErr result (λ e. status_of e ≡ 7 → rows_of (generated n) ≡ None) }
    ensures numbers_line { IfErr result (λ e. status_of e ≡ 7 → line_of e ≡ numbers_line) }
{
    let script = generate(alloc, n)?;
    let mut rows = Rows::new(alloc);
    play(alloc, script, &mut rows)?;
    Ok(summary_text(alloc, &Trace { rows })?)
}
