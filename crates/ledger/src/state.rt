// The plain data of a ledger (docs/RULES.md, "The book").
ghost use Rattle.std.specs.Prelude.{◌≡◌, MatchOption};
ghost use Rattle.ledger.specs.Places.{account_at, place_at, contract_in, with_account, with_place};

use crate::seat::{AccountSeat, PlaceSeat};
use refusal::Refusal;
use rules::limits::Term;

// How far the day is. Each check tests it itself, and so reads as its refusals in the order of their numbers.
#[derive(Clone, Copy, Debug, PartialEq, Eq)]
pub enum Stage {
    Resting,
    Open,
    Closed,
}

// Available funds and margin in units, the cash paid in since the start in fen, and the pay-outs of the day.
#[derive(Clone, Copy, Debug, PartialEq, Eq)]
pub struct Account {
    pub available: i64,
    pub margin: u64,
    pub paid: u64,
    pub payouts: u64,
}

// One listing: its terms, the previous price, and the figures of the day.
#[derive(Clone, Copy, Debug, PartialEq, Eq)]
pub struct Contract {
    pub number: u64,
    pub base: u64,
    pub previous: u64,
    pub ratio: u64,
    // fen per TEU
    pub fee: u64,
    pub delivery: u64,
    pub term: Term,
    // of the day: TEU, the sum of price × quantity, closing quotes, delivery price
    pub quantity: u64,
    pub value: u64,
    pub bid: Option<u64>,
    pub ask: Option<u64>,
    pub price: Option<u64>,
}

// One account's position in one place, in TEU, with long less short at the day's start, and the day's trades.
// Four bytes a figure: the table is copied for every trade.
#[derive(Clone, Copy, Debug, PartialEq, Eq)]
pub struct Row {
    pub long: u32,
    pub short: u32,
    pub net: i32,
    pub bought: u32,
    pub sold: u32,
    // sums of price × quantity, bought and sold
    pub cost: u32,
    pub proceeds: u32,
}

// The rows of 32 accounts × 12 places, one after another as the definitions count them.
#[derive(Clone, Copy, Debug, PartialEq, Eq)]
pub struct Table {
    pub rows: [Row; 384],
}

#[derive(Clone, Copy, Debug, PartialEq, Eq)]
pub struct State {
    pub stage: Stage,
    // of the last settlement, or of the start
    pub rate: u64,
    // of the settlement to come, while closed; else of no meaning, and still a field since definitions read it
    pub closing: u64,
    pub day: u64,
    // contract number so far
    pub highest: u64,
    // in units, since the start
    pub fees: u64,
    pub accounts: [Account; 32],
    pub places: [Option<Contract>; 12],
    pub table: Table,
}

impl State {
    // The contract at a place, where one stands.
    pub(crate) fn contract_at(&self, at: PlaceSeat) -> Result<Contract, Refusal>
        ensures { result ≡ contract_in (place_at self.now at) }
    {
        self.places[at.index()].ok_or(Refusal::PlaceState)
    }

    // This state, with one account changed.
    pub(crate) fn with_account<F: FnOnce(Account) -> Account>(
        &self,
        at: AccountSeat,
        change: F,
    ) -> State
        requires { F.pre change (account_at self.now at) }
        ensures { (account : Account) × F.post change (account_at self.now at) account × (result ≡ with_account self.now at account) }
    {
        let mut accounts = self.accounts;
        accounts[at.index()] = change(accounts[at.index()]);
        State { accounts, ..*self }
    }

    // This state, with the contract at a place changed; an empty place stays.
    pub(crate) fn with_contract<F: FnOnce(Contract) -> Contract>(
        &self,
        at: PlaceSeat,
        change: F,
    ) -> State
        requires { F.IsAlwaysCallable change }
        ensures { MatchOption (place_at self.now at) (result ≡ self.now) (λ held. (contract : Contract) × F.post change held contract × (result ≡ with_place self.now at contract)) }
    {
        let mut places = self.places;
        places[at.index()] = places[at.index()].map(change);
        State { places, ..*self }
    }
}

// The two parts of a trade.
#[derive(Clone, Copy, Debug, PartialEq, Eq)]
pub enum Part {
    Buyer,
    Seller,
}

// What a trade does to the position of one of them.
#[derive(Clone, Copy, Debug, PartialEq, Eq)]
pub enum Effect {
    Opens,
    Closes,
}

// A trade, in whatever numbers its caller brings.
#[derive(Clone, Copy, Debug, PartialEq, Eq)]
pub struct Deal {
    pub place: u64,
    pub price: u64,
    pub quantity: u64,
    pub buyer: u64,
    pub bought: Effect,
    pub seller: u64,
    pub sold: Effect,
}

// The terms of a contract to be listed.
#[derive(Clone, Copy, Debug, PartialEq, Eq)]
pub struct Listing {
    pub place: u64,
    pub number: u64,
    pub base: u64,
    pub ratio: u64,
    pub fee: u64,
    pub delivery: u64,
    pub last: u64,
}

// A trade that may be made: its contract as it stands, and the opening margin of each side that opens.
#[derive(Clone, Copy, Debug, PartialEq, Eq)]
pub struct Bargain {
    pub contract: Contract,
    pub margin: u64,
}

// What an account's rows come to at a settling, in units: results, delivery fees, and the margin of what is held on.
#[derive(Clone, Copy, Debug, PartialEq, Eq)]
pub struct Outcome {
    pub result: i64,
    pub fee: u64,
    pub margin: u64,
}

// A contract as it was settled.
#[derive(Clone, Copy, Debug, PartialEq, Eq)]
pub struct Settled {
    pub number: u64,
    pub price: u64,
}

// What a settling says: the contracts settled, by place, and each account's change of equity, in units.
#[derive(Clone, Copy, Debug, PartialEq, Eq)]
pub struct Settlement {
    pub contracts: [Option<Settled>; 12],
    pub changes: [i64; 32],
}

// What an account has, in units, and the cash call on it.
#[derive(Clone, Copy, Debug, PartialEq, Eq)]
pub struct Funds {
    pub available: i64,
    pub margin: u64,
    pub equity: i64,
    pub call: u64,
}
