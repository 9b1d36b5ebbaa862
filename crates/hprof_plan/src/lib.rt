//! The classes of a session that makes the heap of a dump, and what a first walk over the dump finds.
#![tactic(auto)]

mod class_fields;
mod define;
mod dump;
mod dump_classes;
mod fields;
mod items;
mod names;
mod planning;
mod root_classes;
mod static_classes;

pub use dump::{Found, find};
pub use fields::{own_fields, static_fields};
pub use items::RootFound;
pub use names::given_name;
pub use planning::{Plan, Statics, plan_classes};
