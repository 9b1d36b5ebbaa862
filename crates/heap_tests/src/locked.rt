//! The heap under its lock: seats in one thread and in several, workers, and audits. Dumps of a shared heap's pins, through the
//! pipe and beside the meter: outlets that are held, and streams that are cancelled.
mod cancelling;
mod definitions;
mod dumps;
mod ends;
mod gates;
mod live;
mod live_tests;
mod metered;
mod rolls;
mod scenes;
mod shared;
pub mod sinks;
mod sources;
mod threads;
mod watched;
mod workers;
