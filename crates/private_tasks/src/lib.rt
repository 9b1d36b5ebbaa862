//! The tasks of the program over a heap of its own: `run`, `explore`, `draw` and `save`; and what all tasks share: faults, the
//! lines or the dumps that are run first, the file of a secret, progress and reports at a terminal.
#![tactic(auto)]

mod asked_run;
pub mod draw;
pub mod explore;
mod failure;
mod first_dump;
mod first_lines;
mod folder;
mod opening;
mod own_files;
mod progress;
mod reasons;
mod request;
pub mod run;
pub mod save;
mod second_dump;
mod secret_file;
mod terminals;

pub use failure::{Failure, Fault, outcome, report};
pub use first_lines::run_first;
pub use folder::missing_folder;
pub use progress::{ProgressLine, TerminalGauge};
pub use reasons::{tell_path, tell_port};
pub use request::Request;
pub use secret_file::secret_for;
pub use terminals::{Screen, Terminals};
