//! What is wrong with words that say no command, and the line that tells it.
#![tactic(auto)]

pub use blame::{Blame, blame_of};
pub use laws::quoted_words_print;
pub use line::{blame_line, push_quoted};
pub use rule::Rule;

mod blame;
mod laws;
mod line;
mod rule;
mod rules;
