//! What errors say when they are printed.

ghost use Rattle.std.specs.Prelude.{Some};
ghost use Rattle.dns_values.specs.ErrorText.{parse_error_text, short_message_text, long_name_text, long_opt_data_text, failed_text, no_memory_text, read_fault_text, sink_fault_text};

use crate::error::{Failed, LongName, LongOptData, NoMemory, ParseError, ShortMessage};
use crate::sink::SinkFault;
use crate::streams::ReadFault;
use std::error::Error;
use std::fmt::{self, Display};

impl Display for ParseError {
    ghost output = { λ _. Some parse_error_text };

    fn fmt<W: fmt::Write>(&self, f: &mut fmt::Formatter<W>) -> fmt::Result {
        f.write_str("the octets do not follow the grammar")
    }
}

impl Error for ParseError {}

impl Display for ShortMessage {
    ghost output = { λ _. Some short_message_text };

    fn fmt<W: fmt::Write>(&self, f: &mut fmt::Formatter<W>) -> fmt::Result {
        f.write_str("the message is shorter than its header")
    }
}

impl Error for ShortMessage {}

impl Display for LongName {
    ghost output = { λ _. Some long_name_text };

    fn fmt<W: fmt::Write>(&self, f: &mut fmt::Formatter<W>) -> fmt::Result {
        f.write_str("the name is too long")
    }
}

impl Error for LongName {}

impl Display for LongOptData {
    ghost output = { λ _. Some long_opt_data_text };

    fn fmt<W: fmt::Write>(&self, f: &mut fmt::Formatter<W>) -> fmt::Result {
        f.write_str("the data of the OPT record is too long")
    }
}

impl Error for LongOptData {}

impl Display for Failed {
    ghost output = { λ _. Some failed_text };

    fn fmt<W: fmt::Write>(&self, f: &mut fmt::Formatter<W>) -> fmt::Result {
        f.write_str("reading, writing or opening failed")
    }
}

impl Error for Failed {}

impl Display for NoMemory {
    ghost output = { λ _. Some no_memory_text };

    fn fmt<W: fmt::Write>(&self, f: &mut fmt::Formatter<W>) -> fmt::Result {
        f.write_str("out of memory")
    }
}

impl Error for NoMemory {}

impl Display for ReadFault {
    ghost output = { λ fault. Some (read_fault_text fault) };

    fn fmt<W: fmt::Write>(&self, f: &mut fmt::Formatter<W>) -> fmt::Result {
        match self {
            ReadFault::Failed => f.write_str("reading failed"),
            ReadFault::TooLong => f.write_str("the input is too long"),
            ReadFault::NoMemory => f.write_str("out of memory"),
        }
    }
}

impl Error for ReadFault {}

impl Display for SinkFault {
    ghost output = { λ fault. Some (sink_fault_text fault) };

    fn fmt<W: fmt::Write>(&self, f: &mut fmt::Formatter<W>) -> fmt::Result {
        match self {
            SinkFault::Failed => f.write_str("writing failed"),
            SinkFault::NoMemory => f.write_str("out of memory"),
        }
    }
}

impl Error for SinkFault {}
