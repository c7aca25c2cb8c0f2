// Rows and their table: what a trade does to one row, and what a row comes to at a settling (docs/RULES.md, "Trades",
// "Settling"). A row is changed through the table, one at a time, and every other row stays.
// The bounds of a row and of a mark stand in clauses (`Small`): definitions make rows of any size, and a ghost field of the type
// would ask each of them for a proof.
ghost use Rattle.std.specs.Prelude.{◌≡◌, ◌+◌, ◌*◌, ◌<◌, ◌≤◌, false, pos, ◌+ℤ◌, ◌-ℤ◌, ◌*ℤ◌, neg_ℤ, ◌≤ℤ◌};
ghost use Rattle.ledger.specs.Rows.{row_at, set_row, lacking, overfilled, overtraded, row_after, opened_row, result_of, Small};

use crate::days::EMPTY;
use crate::seat::{AccountSeat, PlaceSeat};
use crate::state::{Effect, Part, Row, Table};
use rules::units::{MAX_DAY_TEU, MAX_SIDE_TEU, PLACES};

// So many TEU at a value of at most 10^9 units each.
fn times(teu: u64, value: u64) -> u64
    requires teu { teu ≤ 100000 }
    requires value { value ≤ 1000000000 }
    ensures value { result ≡ teu * value }
    ensures most { result ≤ 1000000000 * teu }
{
    teu * value
}

// A sum of price × quantity over so many TEU, in units. Not `times`: its bound counts the TEU, of which the sum says nothing.
fn worth(sum: u32, teu: u32, rate: u64) -> u64
    requires sum { sum ≤ 9999 * teu }
    requires teu { teu ≤ 100000 }
    requires rate { rate ≤ 99999 }
    ensures value { result ≡ sum * rate }
    ensures most { result ≤ 1000000000 * teu }
{
    sum as u64 * rate
}

// What the position at the day's start gains from its old value to the mark.
fn carried(net: i32, mark: u64, old: u64) -> i64
    requires short { neg_ℤ (pos 50000) ≤ℤ net }
    requires long { net ≤ℤ pos 50000 }
    requires mark { mark ≤ 1000000000 }
    requires old { old ≤ 1000000000 }
    ensures value { result ≡ net *ℤ (pos mark -ℤ pos old) }
    ensures near { (neg_ℤ (pos 50000000000000) ≤ℤ result) × (result ≤ℤ pos 50000000000000) }
{
    let size = net.unsigned_abs() as u64;
    let up = times(size, mark) as i64;
    let down = times(size, old) as i64;
    if net < 0 { down - up } else { up - down }
}

fn balance(start: i64, gained: u64, spent: u64) -> i64
    requires low { neg_ℤ (pos 50000000000000) ≤ℤ start }
    requires high { start ≤ℤ pos 50000000000000 }
    requires gained { gained ≤ 100000000000000 }
    requires spent { spent ≤ 100000000000000 }
    ensures value { result ≡ start +ℤ (pos gained -ℤ pos spent) }
    ensures near { (neg_ℤ (pos 150000000000000) ≤ℤ result) × (result ≤ℤ pos 150000000000000) }
{
    start + (gained as i64 - spent as i64)
}

// One side of a trade: whose row in which place, its part, and what it does to the position.
#[derive(Clone, Copy, Debug, PartialEq, Eq)]
pub(crate) struct Side {
    pub(crate) account: AccountSeat,
    pub(crate) place: PlaceSeat,
    pub(crate) part: Part,
    pub(crate) effect: Effect,
    pub(crate) price: u32,
    pub(crate) quantity: u32,
    ghost cheap: { price ≤ 9999 },
    ghost few: { quantity ≤ 50000 },
}

impl Row {
    // A closing side holds less than it closes.
    pub(crate) fn lacks(&self, side: &Side) -> bool
        ensures { result ≡ lacking self.now side.now.part side.now.effect side.now.quantity }
    {
        match (side.part, side.effect) {
            (Part::Buyer, Effect::Closes) => self.short < side.quantity,
            (Part::Seller, Effect::Closes) => self.long < side.quantity,
            (_, Effect::Opens) => false,
        }
    }

    // An opening side would hold more than its ceiling.
    pub(crate) fn overfills(&self, side: &Side) -> bool
        ensures { result ≡ overfilled self.now side.now.part side.now.effect side.now.quantity }
    {
        let held = match (side.part, side.effect) {
            (Part::Buyer, Effect::Opens) => self.long,
            (Part::Seller, Effect::Opens) => self.short,
            (_, Effect::Closes) => return false,
        };
        held as u64 + side.quantity as u64 > MAX_SIDE_TEU
    }

    pub(crate) fn overtrades(&self, side: &Side) -> bool
        ensures { result ≡ overtraded self.now side.now.quantity }
    {
        self.bought as u64 + self.sold as u64 + side.quantity as u64 > MAX_DAY_TEU
    }

    // One row after its side of a trade.
    pub(crate) fn after(&self, side: &Side) -> Row
        requires small { Small self.now }
        requires held { lacking self.now side.now.part side.now.effect side.now.quantity ≡ false }
        ensures { result ≡ row_after self.now side.now.part side.now.effect side.now.price side.now.quantity }
    {
        let mut row = *self;
        let value = side.price * side.quantity;
        match side.part {
            Part::Buyer => {
                row.bought += side.quantity;
                row.cost += value;
            }
            Part::Seller => {
                row.sold += side.quantity;
                row.proceeds += value;
            }
        }
        match (side.part, side.effect) {
            (Part::Buyer, Effect::Opens) => row.long += side.quantity,
            (Part::Buyer, Effect::Closes) => row.short -= side.quantity,
            (Part::Seller, Effect::Opens) => row.short += side.quantity,
            (Part::Seller, Effect::Closes) => row.long -= side.quantity,
        }
        row
    }

    // What the row gains or loses at a settling.
    pub(crate) fn result(&self, mark: u64, old: u64, rate: u64) -> i64
        requires small { Small self.now }
        requires mark { mark ≤ 1000000000 }
        requires old { old ≤ 1000000000 }
        requires rate { rate ≤ 99999 }
        ensures value { result ≡ result_of self.now mark old rate }
        ensures near { (neg_ℤ (pos 150000000000000) ≤ℤ result) × (result ≤ℤ pos 150000000000000) }
    {
        let start = carried(self.net, mark, old);
        let gained = times(self.bought as u64, mark) + worth(self.proceeds, self.sold, rate);
        let spent = worth(self.cost, self.bought, rate) + times(self.sold as u64, mark);
        balance(start, gained, spent)
    }

    // The row at the start of a day.
    pub(crate) fn opened(&self) -> Row
        requires long { self.now.long ≤ 50000 }
        requires short { self.now.short ≤ 50000 }
        ensures { result ≡ opened_row self.now }
    {
        Row {
            long: self.long,
            short: self.short,
            net: self.long as i32 - self.short as i32,
            ..EMPTY
        }
    }
}

// By plain numbers under their bounds and by no seats, since a settling counts through all rows.
impl Table {
    pub(crate) fn at(&self, account: usize, place: usize) -> Row
        requires account { account < 32 }
        requires place { place < 12 }
        ensures { result ≡ row_at self.now account place }
    {
        self.rows[account * PLACES + place]
    }

    pub(crate) fn put(&mut self, account: usize, place: usize, row: Row)
        requires account { account < 32 }
        requires place { place < 12 }
        ensures { self.new ≡ set_row self.old account place row }
    {
        self.rows[account * PLACES + place] = row;
    }
}
