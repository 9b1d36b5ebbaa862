//! A heap dump as a session: walks over the records of a dump, and makes the lines that build its heap.
#![tactic(auto)]

mod places;
mod walk;
mod whole_walk;

pub use places::{MADE, PLACES, are_places, push_fetch, push_keep, push_place};
pub use walk::{Item, Walk, item_at};
pub use whole_walk::{Survey, walk_over};
