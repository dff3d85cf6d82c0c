//! The laws of libraries, which their functions without a body state.

use dns_base::{
    Name, RelativeName, address_laws, name_is_read_back, name_laws, number_name_laws,
    relative_name_is_read_back, text_laws,
};
use dns_names::grammar_laws;
use resolv_conf::{finalize_laws, line_laws};
use std::alloc::Global;

/// Calls the laws of names, values and configurations, those of names with `NAME`.
pub fn text_of(alloc: Global, word: &str, rest: &str) -> Option<String> {
    if word != "laws" {
        return None;
    }
    name_laws();
    text_laws();
    grammar_laws();
    name_is_read_back(&Name::from_text(alloc, rest).ok()?);
    relative_name_is_read_back(&RelativeName::from_text(alloc, rest).ok()?);
    address_laws();
    number_name_laws();
    finalize_laws();
    line_laws();
    String::from_str(alloc, "called\n").ok()
}
