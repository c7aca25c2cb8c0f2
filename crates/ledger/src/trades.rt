// A trade: what it asks, and what it changes (docs/RULES.md, "Trades").
ghost use Rattle.std.specs.Prelude.{◌≡◌, ◌+◌, ◌-◌, ◌*◌, ◌<◌, ◌≤◌, false};
ghost use Rattle.refusal.specs.Reasons.{answered, first};
ghost use Rattle.ledger.specs.Places.{place_at};
ghost use Rattle.ledger.specs.Rows.{Small, row_at, lacking};
ghost use Rattle.ledger.specs.Sound.{Sound};
ghost use Rattle.ledger.specs.Trade.{frame_reasons, sides_reasons, fee_of, poor, bargain, charged, trade_row, traded_contract, traded_state, framed_contract, parties_of, WithParties, InRange, Chargeable, Tradable};

use crate::quotes::{is_outside, limits};
use crate::seat::{AccountSeat, PlaceSeat};
use crate::state::{Account, Bargain, Contract, Deal, Effect, Part, Stage, State, Table};
use crate::table::Side;
use refusal::Refusal;
use rules::margin::MarginRule;
use rules::units::{FEN_UNITS, MAX_SIDE_TEU};

// The seats of a deal's numbers.
#[derive(Clone, Copy, Debug, PartialEq, Eq)]
pub(crate) struct Parties {
    place: PlaceSeat,
    buyer: AccountSeat,
    seller: AccountSeat,
}

// The contract to be traded, or the first reason why not that can be told before its two sides are looked at.
fn check_frame(state: &State, deal: &Deal) -> Result<(Contract, Parties), Refusal>
    ensures { WithParties (framed_contract (first (frame_reasons state.now deal.now)) (place_at state.now (deal.now.place - 1))) deal.now result }
{
    if state.stage != Stage::Open {
        return Err(Refusal::WrongPhase);
    }
    let parties = Parties {
        place: deal.place.try_into()?,
        buyer: deal.buyer.try_into()?,
        seller: deal.seller.try_into()?,
    };
    let contract = state.contract_at(parties.place)?;
    if deal.buyer == deal.seller {
        return Err(Refusal::SameTrader);
    }
    if !(1..=MAX_SIDE_TEU).contains(&deal.quantity) {
        return Err(Refusal::QuantityRange);
    }
    if is_outside(&limits(state.day, &contract), deal.price) {
        return Err(Refusal::PriceLimits);
    }
    Ok((contract, parties))
}

// Each side's fee, in units.
pub(crate) fn fee(contract: &Contract, deal: &Deal) -> u64
    requires fee { contract.now.fee ≤ 10000 }
    requires quantity { deal.now.quantity ≤ 50000 }
    ensures value { result ≡ fee_of contract.now deal.now }
    ensures most { result ≤ 1000000 * deal.now.quantity }
{
    FEN_UNITS * contract.fee * deal.quantity
}

fn is_poor(account: &Account, effect: Effect, need: u64) -> bool
    requires { need ≤ 1000000000000000 }
    ensures { result ≡ poor account.now effect need }
{
    effect == Effect::Opens && account.available < need as i64
}

// A deal is as its caller brought it, and goes beside its seats: a struct of both would copy it.
impl Deal {
    fn buying(&self, parties: &Parties) -> Side
        requires { InRange self.now }
        ensures row { (result.account ≡ parties.now.buyer) × (result.place ≡ parties.now.place) }
        ensures sign { (result.part ≡ Part.Buyer) × (result.effect ≡ self.now.bought) }
        ensures figures { (result.price ≡ self.now.price) × (result.quantity ≡ self.now.quantity) }
    {
        self.side(parties.buyer, parties.place, Part::Buyer, self.bought)
    }

    fn selling(&self, parties: &Parties) -> Side
        requires { InRange self.now }
        ensures row { (result.account ≡ parties.now.seller) × (result.place ≡ parties.now.place) }
        ensures sign { (result.part ≡ Part.Seller) × (result.effect ≡ self.now.sold) }
        ensures figures { (result.price ≡ self.now.price) × (result.quantity ≡ self.now.quantity) }
    {
        self.side(parties.seller, parties.place, Part::Seller, self.sold)
    }

    fn side(&self, account: AccountSeat, place: PlaceSeat, part: Part, effect: Effect) -> Side
        requires { InRange self.now }
        ensures row { (result.account ≡ account) × (result.place ≡ place) }
        ensures sign { (result.part ≡ part) × (result.effect ≡ effect) }
        ensures figures { (result.price ≡ self.now.price) × (result.quantity ≡ self.now.quantity) }
    {
        Side {
            account,
            place,
            part,
            effect,
            price: self.price as u32,
            quantity: self.quantity as u32,
        }
    }
}

// What the two rows and accounts refuse, one number after another.
fn check_sides(
    state: &State,
    deal: &Deal,
    parties: &Parties,
    bargain: &Bargain,
    room: bool,
) -> Result<(), Refusal>
    requires seats { parties.now ≡ parties_of deal.now }
    requires range { InRange deal.now }
    requires margin { bargain.now.margin ≤ 100000000000099 }
    requires fee { bargain.now.contract.fee ≤ 10000 }
    ensures { result ≡ answered (first (sides_reasons state.now deal.now bargain.now room)) }
{
    let buyer = deal.buying(parties);
    let seller = deal.selling(parties);
    let bought = state.table.at(buyer.account.index(), buyer.place.index());
    let sold = state.table.at(seller.account.index(), seller.place.index());
    if bought.lacks(&buyer) || sold.lacks(&seller) {
        return Err(Refusal::NotHeld);
    }
    if bought.overfills(&buyer) || sold.overfills(&seller) {
        return Err(Refusal::SideCeiling);
    }
    if bought.overtrades(&buyer) || sold.overtrades(&seller) {
        return Err(Refusal::DayCeiling);
    }
    let need = bargain.margin + fee(&bargain.contract, deal);
    let payer = &state.accounts[buyer.account.index()];
    let other = &state.accounts[seller.account.index()];
    if is_poor(payer, buyer.effect, need) || is_poor(other, seller.effect, need) {
        return Err(Refusal::ShortOfMargin);
    }
    if !room {
        return Err(Refusal::NoRoom);
    }
    Ok(())
}

// One side pays its fee, and moves its margin where it opens.
fn charge(account: &Account, effect: Effect, margin: u64, fee: u64) -> Account
    requires margin { margin ≤ 100000000000099 }
    requires fee { fee ≤ 50000000000 }
    requires room { Chargeable account.now }
    ensures { result ≡ charged account.now effect margin fee }
{
    match effect {
        Effect::Opens => Account {
            available: account.available - (margin + fee) as i64,
            margin: account.margin + margin,
            ..*account
        },
        Effect::Closes => Account {
            available: account.available - fee as i64,
            ..*account
        },
    }
}

fn with_trade(contract: &Contract, price: u64, quantity: u64) -> Contract
    requires price { price ≤ 9999 }
    requires few { quantity ≤ 50000 }
    requires traded { contract.now.quantity ≤ 3200000 }
    requires value { contract.now.value ≤ 31996800000 }
    ensures { result ≡ traded_contract contract.now price quantity }
{
    Contract {
        quantity: contract.quantity + quantity,
        value: contract.value + price * quantity,
        ..*contract
    }
}

impl Table {
    // One row changed by its side of a trade.
    fn trade(&mut self, side: &Side)
        requires small { Small (row_at self.old side.now.account side.now.place) }
        requires held { lacking (row_at self.old side.now.account side.now.place) side.now.part side.now.effect side.now.quantity ≡ false }
        ensures { self.new ≡ trade_row self.old side.now.account side.now.place side.now.part side.now.effect side.now.price side.now.quantity }
    {
        let (account, place) = (side.account.index(), side.place.index());
        let row = self.at(account, place);
        self.put(account, place, row.after(side));
    }
}

// The trade that may be made, or the first reason why not.
pub(crate) fn weigh<M: MarginRule>(
    state: &State,
    rule: &M,
    deal: &Deal,
    room: bool,
) -> Result<(Bargain, Parties), Refusal>
    requires { Sound state.now }
    ensures { WithParties (bargain (M.opening rule.now) state.now deal.now room) deal.now result }
{
    let (contract, parties) = check_frame(state, deal)?;
    let margin = rule.opening_margin(deal.price * state.rate, deal.quantity, contract.ratio);
    let bargain = Bargain { contract, margin };
    check_sides(state, deal, &parties, &bargain, room)?;
    Ok((bargain, parties))
}

// Two rows of a copy of the table are changed, one at a time, and the copy is written back whole.
pub(crate) fn exchanged(state: &State, deal: &Deal, parties: &Parties, bargain: &Bargain) -> State
    requires seats { parties.now ≡ parties_of deal.now }
    requires tradable { Tradable state.now deal.now bargain.now }
    ensures { result ≡ traded_state state.now deal.now bargain.now }
{
    let buyer = deal.buying(parties);
    let seller = deal.selling(parties);
    let mut table = state.table;
    table.trade(&buyer);
    table.trade(&seller);
    let fee = fee(&bargain.contract, deal);
    let mut accounts = state.accounts;
    let (payer, other) = (buyer.account.index(), seller.account.index());
    accounts[payer] = charge(&accounts[payer], buyer.effect, bargain.margin, fee);
    accounts[other] = charge(&accounts[other], seller.effect, bargain.margin, fee);
    let mut places = state.places;
    places[parties.place.index()] = Some(with_trade(&bargain.contract, deal.price, deal.quantity));
    State {
        fees: state.fees + 2 * fee,
        accounts,
        places,
        table,
        ..*state
    }
}
