// The archive of a book: every movement of money, in bytes that anyone can read back (docs/ARCHIVE.md).
#![tactic(auto)]

pub mod chain;
pub mod entry;
mod layout;
mod links;
pub mod read;
pub mod write;
