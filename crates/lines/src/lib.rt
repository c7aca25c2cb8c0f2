// The text that people write and read (docs/RULES.md, "Instruction lines" and "Print-out"): a file's lines, the
// instruction that a line says or what is wrong with it, and the text of an amount. It knows of no book.
#![tactic(auto)]

pub mod amount;
mod cursor;
mod cut;
pub mod examples;
mod field;
pub mod file;
pub mod instruction;
pub mod line;
pub mod token;
mod verb;
