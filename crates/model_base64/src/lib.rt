//! Base64 text in lines (RFC 4648), and its law.
#![tactic(auto)]

pub use base64_text::canonical_text_is_of_one_form;

mod base64_text;
