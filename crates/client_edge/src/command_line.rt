//! The words of the command line.

use std::alloc::{AllocError, AllocGlobal};
use std::env;
use std::io::ErrorKind;
use std::rt::Env;

/// The words of the command line, without the program's own name; none where one of them is not UTF-8.
pub fn command_words<R: Env + AllocGlobal>(rt: &R) -> Result<Vec<String>, AllocError> {
    let mut words = Vec::new(rt.alloc());
    let args = match env::args(rt) {
        Ok(args) => args,
        Err(error) => {
            return match error.kind() {
                ErrorKind::OutOfMemory => Err(AllocError),
                _ => Ok(words),
            };
        }
    };
    for word in args.skip(1) {
        words.push(word)?;
    }
    Ok(words)
}
