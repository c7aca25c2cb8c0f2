// One contract's day as the price rules see it (docs/RULES.md, "Price rules").
use crate::limits::Limits;

// Prices in dollars per TEU, the quantity in TEU. The value is the sum of price × quantity over the day's trades,
// bid and ask are the closing quotes, if any.
#[derive(Clone, Copy, Debug, PartialEq, Eq)]
pub struct Figures {
    pub previous: u64,
    pub limits: Limits,
    pub quantity: u64,
    pub value: u64,
    pub bid: Option<u64>,
    pub ask: Option<u64>,
}
