// The market's rules as functions of numbers alone: units and ceilings, limits, prices, margins and marks.
// Each function answers for every input, by the definition in specs/ that its contract cites (docs/RULES.md).
#![tactic(auto)]

pub mod figures;
pub mod laws;
pub mod limits;
pub mod margin;
pub mod mark;
pub mod price;
pub mod units;
