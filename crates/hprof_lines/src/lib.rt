//! The lines that make the objects of a dump, write their values and references, and keep its roots.
#![tactic(auto)]

mod left_out;
mod objects;
mod output;
mod passes;
mod roots;
mod session;
mod slots;
mod static_objects;
mod values;

pub use left_out::{LeftOut, count_left_out};
pub use objects::{Objects, making_event, names_object, number_of};
pub use output::{put_lines, put_some, put_text};
pub use passes::{is_turn, made_objects};
pub use roots::{ROOT_TAGS, push_clears, push_roots, roots_named};
pub use session::{static_ids, write_session};
pub use slots::read_object;
pub use values::{SlotValue, add_statics};
