//! The secret word of a served heap, which the first line of each of its clients has to be.
#![tactic(auto)]

pub mod ends;
pub mod first_line;
pub mod line;
pub mod secret;

pub use first_line::{FIRST_LINE_LIMIT, await_line};
pub use line::SecretLine;
pub use secret::{Secret, WORD_LEAST, WORD_LIMIT};
