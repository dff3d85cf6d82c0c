//! The states of a transfer, by their names.

use client_transfer::XfrState;
use dns_base::Serial;

/// The state in which a serial is kept.
fn keeping(name: &str, serial: Serial) -> Option<XfrState> {
    match name {
        "AxfrFirstSoa" => Some(XfrState::AxfrFirstSoa(serial)),
        "IxfrFirstSoa" => Some(XfrState::IxfrFirstSoa(serial)),
        "IxfrFirstDiffSoa" => Some(XfrState::IxfrFirstDiffSoa(serial)),
        "IxfrSecondDiffSoa" => Some(XfrState::IxfrSecondDiffSoa(serial)),
        _ => None,
    }
}

/// The state of a word, as `AxfrInit`, or `AxfrFirstSoa-7` where the serial 7 is kept.
pub fn state_named(word: &str) -> Option<XfrState> {
    if let Some((name, serial)) = word.split_once('-') {
        return keeping(name, Serial(serial.parse::<u32>().ok()?));
    }
    match word {
        "AxfrInit" => Some(XfrState::AxfrInit),
        "IxfrInit" => Some(XfrState::IxfrInit),
        "Done" => Some(XfrState::Done),
        "Error" => Some(XfrState::Error),
        _ => None,
    }
}
