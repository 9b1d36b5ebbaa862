//! Which lines ask questions, and which change the heap, beside those of the grammar of sessions: by numbers and by names. And what
//! a session notes of places.
#![tactic(auto)]

mod bookmarks;
mod chain;
mod class_event;
mod event_name;
mod file_line;
mod name_words;
mod named_line;
mod note_line;
mod order;
mod parts;
mod question;

pub use bookmarks::Bookmarks;
pub use chain::{Chain, Extent, chain_in};
pub use file_line::{FileContent, FileLine, file_in};
pub use name_words::slot_of;
pub use named_line::question_in;
pub use note_line::{name_set, place_opened, place_set};
pub use order::{Order, order_in};
pub use parts::Parts;
pub use question::{Question, at_of, question_of};
