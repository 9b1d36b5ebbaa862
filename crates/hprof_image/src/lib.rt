//! The image that a dump tells: what its names, classes, objects and registers are, by a definition over the records that
//! hprof_reader reads. It has laws, and no code that a program calls.
#![tactic(auto)]

mod laws;

pub use laws::{
    dumps_tell_images, equal_dumps_show_alike, legal_dumps_tell_images, parts_are_exact,
};
