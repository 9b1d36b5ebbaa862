//! Calls that no program makes: a step of a heap and the weight of its record, a list of actions, a pump of a machine's pin, and a
//! session that is saved into memory; and settings that no command line gives.
mod drive;
mod dump_text;
mod pace;
mod pin_pump;
mod saves;
mod settings;
mod steps;
mod trials;
