// One market's book: phases, permits and the thirteen calls over the ledger and the archive (docs/RULES.md, "Phases and
// permits", "Calls"). Every call refuses with a numbered refusal, changes nothing then and hands its permit back.
#![tactic(auto)]

pub mod book;
pub mod desk;
mod entries;
pub mod permit;
