//! What programs for people say of themselves: their release, the logic that they were proved with, and whether a command line asks
//! for that or for help alone; and the tables by which words are read.
#![tactic(auto)]

mod page;
mod release;
mod row;

pub use page::{Page, page_asked};
pub use release::{LOGIC, RELEASE, version_line};
pub use row::{Letters, Row, said_in};
