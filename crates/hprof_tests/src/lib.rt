//! The tests in Rattle of the sessions of dumps, and of what these are made of. They are a crate of their own, since a crate's
//! functions are all proved again with its tests.
#![tactic(auto)]

#[cfg(test)]
mod conversion;
#[cfg(test)]
mod lines;
#[cfg(test)]
mod pairs;
#[cfg(test)]
mod records;
#[cfg(test)]
mod session;
#[cfg(test)]
mod tables;
#[cfg(test)]
mod walks;
