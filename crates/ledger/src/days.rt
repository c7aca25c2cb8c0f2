// The start of a ledger, and the opening and the end of a day (docs/RULES.md, "Founding", "Day", "End").
ghost use Rattle.std.specs.Prelude.{◌≡◌, ◌<◌, ◌≤◌, None};
ghost use Rattle.std.specs.List.{list_all};
ghost use Rattle.refusal.specs.Reasons.{answered};
ghost use Rattle.ledger.specs.Sound.{Sound, RowsIn, standing, delivery_holds};
ghost use Rattle.ledger.specs.Sums.{tabulated};
ghost use Rattle.ledger.specs.Places.{account_at, place_at};
ghost use Rattle.ledger.specs.Days.{bad_rate, started, open_refusal, open_state, opened_account, opened_contract, opened_place, opened_table, close_refusal, close_state};

use crate::state::{Account, Contract, Row, Stage, State, Table};
use refusal::Refusal;
use rules::units::{MAX_DAYS, MAX_RATE_UNITS, MIN_RATE_UNITS};
use std::array;

// Consts, as elements that arrays repeat.
pub(crate) const NOBODY: Account = Account {
    available: 0,
    margin: 0,
    paid: 0,
    payouts: 0,
};

pub(crate) const EMPTY: Row = Row {
    long: 0,
    short: 0,
    net: 0,
    bought: 0,
    sold: 0,
    cost: 0,
    proceeds: 0,
};

pub(crate) fn is_bad_rate(rate: u64) -> bool
    ensures { result ≡ bad_rate rate }
{
    !(MIN_RATE_UNITS..=MAX_RATE_UNITS).contains(&rate)
}

pub(crate) fn start(rate: u64) -> State
    ensures { result ≡ started rate }
{
    State {
        stage: Stage::Resting,
        rate,
        closing: 0,
        day: 0,
        highest: 0,
        fees: 0,
        accounts: [NOBODY; 32],
        places: [None; 12],
        table: Table { rows: [EMPTY; 384] },
    }
}

pub(crate) fn check_open(state: &State, room: bool) -> Result<(), Refusal>
    ensures { result ≡ answered (open_refusal state.now room) }
{
    if state.stage != Stage::Resting {
        return Err(Refusal::WrongPhase);
    }
    if state.day >= MAX_DAYS {
        return Err(Refusal::NoDaysLeft);
    }
    if !room {
        return Err(Refusal::NoRoom);
    }
    Ok(())
}

fn fresh_account(account: Account) -> Account
    ensures { result ≡ opened_account account }
{
    Account {
        payouts: 0,
        ..account
    }
}

fn fresh_contract(contract: Contract) -> Contract
    ensures { result ≡ opened_contract contract }
{
    Contract {
        quantity: 0,
        value: 0,
        bid: None,
        ask: None,
        price: None,
        ..contract
    }
}

// By the index, here and in what follows: an array's `map` moves its elements through an array of options first, which made
// the opening of a day three times as slow.
fn accounts(state: &State) -> [Account; 32]
    ensures { result ≡ tabulated (λ a. opened_account (account_at state.now a)) 32 }
{
    array::from_fn(|account| fresh_account(state.accounts[account]))
}

fn places(state: &State) -> [Option<Contract>; 12]
    ensures { result ≡ tabulated (λ p. opened_place (place_at state.now p)) 12 }
{
    array::from_fn(|place| state.places[place].map(fresh_contract))
}

fn table(state: &State) -> Table
    requires { RowsIn state.now }
    ensures { result ≡ opened_table state.now.table }
{
    Table {
        rows: array::from_fn(|k| state.table.rows[k].opened()),
    }
}

pub(crate) fn opened(state: &State) -> State
    requires rows { RowsIn state.now }
    requires day { state.now.day ≤ 3000 }
    ensures { result ≡ open_state None state.now }
{
    State {
        stage: Stage::Open,
        day: state.day + 1,
        accounts: accounts(state),
        places: places(state),
        table: table(state),
        ..*state
    }
}

// A contract on its last day needs its delivery price.
fn is_priced(day: u64, held: &Option<Contract>) -> bool
    ensures { result ≡ standing (delivery_holds day) held.now }
{
    held.is_none_or(|contract| contract.term.last != day || contract.price.is_some())
}

fn are_priced(day: u64, places: &[Option<Contract>]) -> bool
    ensures { result ≡ list_all (λ held. standing (delivery_holds day) held) places.now }
{
    places.iter().all(|held| is_priced(day, held))
}

#[tactic(auto, using(crate::proofs::Opening::all_priced_list))]
pub(crate) fn check_close(state: &State, rate: u64) -> Result<(), Refusal>
    ensures { result ≡ answered (close_refusal state.now rate) }
{
    if state.stage != Stage::Open {
        return Err(Refusal::WrongPhase);
    }
    if is_bad_rate(rate) {
        return Err(Refusal::RateRange);
    }
    if !are_priced(state.day, &state.places) {
        return Err(Refusal::DeliveryPrice);
    }
    Ok(())
}

pub(crate) fn closed(state: &State, rate: u64) -> State
    ensures { result ≡ close_state None state.now rate }
{
    State {
        stage: Stage::Closed,
        closing: rate,
        ..*state
    }
}
