// The money and positions of one book: accounts, places and rows, with no permits and no archive (docs/RULES.md,
// "Trades", "Cash", "Settling"). Every transition is exact, refuses with a numbered refusal, and keeps the invariant.
#![tactic(auto)]

mod cash;
mod days;
pub mod ledger;
mod listing;
mod quotes;
mod seat;
mod settling;
pub mod state;
mod table;
mod trades;
pub mod worked;
