//! The tests in Rattle, of what no session in a file and no client shows. They are one crate, since the drop of each library's
//! types is proved again in each program.
#![tactic(auto)]

#[cfg(test)]
mod calls;
#[cfg(test)]
mod locked;
#[cfg(test)]
mod scripts;
