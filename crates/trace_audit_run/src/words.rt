//! The words of the command line: options, and behind them the names of a script and of a trace.

ghost use Rattle.std.specs.Prelude.{◌≡◌};
ghost use Rattle.trace_audit_run.specs.Words as plain;

/// What an option asks for.
#[derive(Clone, Copy)]
pub(crate) enum Choice {
    /// Whether a right trace is timely.
    Timely,
    /// Whether it is timely, and misses no hit and no expired answer.
    All,
    /// What is missing where it is wrong, or not timely, in words.
    Explain,
}

/// What the options ask for.
#[derive(Clone, Copy)]
pub(crate) struct Asked {
    /// Whether a right trace is timely.
    pub(crate) timely: bool,
    /// Whether it misses a hit or an expired answer.
    pub(crate) missed: bool,
    /// What is missing where it is wrong, or not timely, in words.
    pub(crate) explain: bool,
}

/// What an option asks for; none where a word is no option.
#[tactic(auto, unfolding(crate::specs::Words::choice_of))]
fn choice_of(word: &str) -> Option<Choice>
    ensures { result ≡ plain.choice_of word.now }
{
    match word {
        "--timely" => Some(Choice::Timely),
        "--all" => Some(Choice::All),
        "--explain" => Some(Choice::Explain),
        _ => None,
    }
}

/// What is asked for, and this besides.
fn with(choice: Choice, asked: Asked) -> Asked
    ensures { result ≡ plain.with_choice choice asked }
{
    match choice {
        Choice::Timely => Asked {
            timely: true,
            missed: asked.missed,
            explain: asked.explain,
        },
        Choice::All => Asked {
            timely: true,
            missed: true,
            explain: asked.explain,
        },
        Choice::Explain => Asked {
            timely: asked.timely,
            missed: asked.missed,
            explain: true,
        },
    }
}

/// What the options before the first word that is none ask for.
pub(crate) fn asked_by(words: &[String]) -> Asked
    ensures { result ≡ plain.asked_by words.now }
{
    match words {
        [] => Asked {
            timely: false,
            missed: false,
            explain: false,
        },
        [first, rest @ ..] => match choice_of(first.as_str()) {
            None => Asked {
                timely: false,
                missed: false,
                explain: false,
            },
            Some(choice) => with(choice, asked_by(rest)),
        },
    }
}

/// The words behind the options.
pub fn names_among(words: &[String]) -> &[String]
    ensures { result.now ≡ plain.names_among words.now }
{
    match words {
        [] => words,
        [first, rest @ ..] => match choice_of(first.as_str()) {
            None => words,
            Some(_) => names_among(rest),
        },
    }
}
