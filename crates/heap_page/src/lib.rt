//! A page of a shared heap, for a browser of this computer: what it shows, how requests for it are answered, and the thread that
//! does so. Nothing here changes the heap.
#![tactic(auto)]

pub mod admission;
pub mod client;
mod page_text;
pub mod service;
mod tending;
pub mod terms;

pub use client::{Turn, exchange};
pub use service::PageService;
pub use tending::{PagePort, tend_page};
pub use terms::PageTerms;
