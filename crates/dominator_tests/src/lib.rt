//! The tests in Rattle of what dominates objects. They are a crate of their own, since a crate's functions are all proved again
//! with its tests.
#![tactic(auto)]

#[cfg(test)]
mod trials;
