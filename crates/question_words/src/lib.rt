//! The words that questions and their answers have in common: states, places, ids, names, and why there is no answer.
#![tactic(auto)]

mod at;
mod id;
mod names;
mod place;
mod ranges;
mod rows;
mod slots;

pub use at::{At, Moment, ago_at, moment_at, steps_ago, view_of};
pub use id::{id_of, push_id, push_reference};
pub use names::{field_name, push_class_name, push_row_name};
pub use place::{older_line, place_line, place_of_object};
pub use ranges::{SlotRange, Span};
pub use rows::{Unanswered, push_count, push_number, push_row, push_words, reason_line};
pub use slots::{class_slot, wanted_refusal};
