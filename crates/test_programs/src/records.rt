//! Tests of scripts that are written: texts that are read and printed again, and a client that is recorded.

mod recorded;
mod texts;
mod turned;
