// A settling: prices and marks, what each account's rows come to, and the state that it leaves (docs/RULES.md, "Settling").
// The bound of one outcome stands in clauses (`Near`): definitions make outcomes of any size, and a ghost field of the type
// would ask each of them for a proof.
ghost use Rattle.std.specs.Prelude.{◌≡◌, ℕ, ◌+◌, ◌*◌, ◌%◌, ◌<◌, ◌≤◌, true, Some, slice_index, slice_index_or, sum_by};
ghost use Rattle.ledger.specs.Places.{account_at, place_at, figures_of, is_closed};
ghost use Rattle.ledger.specs.Rows.{Small};
ghost use Rattle.ledger.specs.Sound.{Sound};
ghost use Rattle.ledger.specs.Sums.{tabulated};
ghost use Rattle.ledger.specs.Settle.{delivered, price_of, price_at, prices_of, nothing, row_outcome, outcome_at, outcome_to, settled_account, change_of, repriced, settled_place, settled_row, settled_by, settled_contract, settlement, added, Near, NearAll, Priced, settled_table, Roomy};

use crate::days::EMPTY;
use crate::quotes::limits;
use crate::state::{Account, Contract, Outcome, Row, Settled, Settlement, Stage, State, Table};
use rules::figures::Figures;
use rules::margin::MarginRule;
use rules::price::PriceRule;
use rules::units::{FEN_UNITS, PLACES};
use std::array;

impl Outcome {
    // What an empty place comes to, and where the sums start.
    const NONE: Outcome = Outcome {
        result: 0,
        fee: 0,
        margin: 0,
    };

    // The sums of up to eleven rows, and one row more.
    fn plus(self, one: Outcome) -> Outcome
        requires sums { Near 11 self }
        requires one { Near 1 one }
        ensures { result ≡ added self one }
    {
        Outcome {
            result: self.result + one.result,
            fee: self.fee + one.fee,
            margin: self.margin + one.margin,
        }
    }
}

fn is_delivered(day: u64, contract: &Contract) -> bool
    ensures { result ≡ delivered day contract.now }
{
    contract.term.last == day
}

fn figures(day: u64, contract: &Contract) -> Figures
    ensures { result ≡ figures_of day contract.now }
{
    Figures {
        previous: contract.previous,
        limits: limits(day, contract),
        quantity: contract.quantity,
        value: contract.value,
        bid: contract.bid,
        ask: contract.ask,
    }
}

// The delivery price on the last day, else the rule's answer.
fn price_of<P: PriceRule>(day: u64, rule: &P, contract: &Contract) -> u64
    ensures { result ≡ price_of (P.meaning rule.now) day contract.now }
{
    if is_delivered(day, contract) {
        // 0 for none, which no ended day has; the definitions name it so
        contract.price.unwrap_or(0)
    } else {
        rule.price(&figures(day, contract))
    }
}

// An empty place has the price 0 and no Option: the definitions list a number for each place, and nothing reads that one.
fn price_at<P: PriceRule>(day: u64, rule: &P, held: &Option<Contract>) -> u64
    ensures { result ≡ price_at (P.meaning rule.now) day held.now }
{
    held.as_ref()
        .map_or(0, |contract| price_of(day, rule, contract))
}

fn prices<P: PriceRule>(state: &State, rule: &P) -> [u64; 12]
    ensures { result ≡ prices_of (P.meaning rule.now) state.now }
{
    array::from_fn(|place| price_at(state.day, rule, &state.places[place]))
}

fn delivery_fee(contract: &Contract, row: &Row) -> u64
    requires fee { contract.now.delivery ≤ 10000 }
    requires small { Small row.now }
    ensures value { result ≡ 100 * contract.now.delivery * (row.now.long + row.now.short) }
    ensures most { result ≤ 100000000000 }
{
    FEN_UNITS * contract.delivery * (row.long as u64 + row.short as u64)
}

fn held_margin<M: MarginRule>(rule: &M, mark: u64, row: &Row, ratio: u64) -> u64
    ensures value { result ≡ M.holding rule.now mark row.now.long row.now.short ratio }
    ensures most { result ≤ 100000000000099 }
{
    rule.holding_margin(mark, row.long as u64, row.short as u64, ratio)
}

// A closed ledger that is settled at a price for each place, under a margin rule.
#[derive(Drop)]
struct Settling<'a, M> {
    state: &'a State,
    rule: &'a M,
    prices: [u64; 12],
    ghost sound: { Sound state.now },
    ghost priced: { Priced prices },
}

impl<M: MarginRule> Settling<'_, M> {
    // What a row comes to in a place where a contract stands.
    fn contract_outcome(&self, price: u64, contract: &Contract, row: &Row) -> Outcome
        requires price { price ≤ 9999 }
        requires previous { contract.now.previous ≤ 9999 }
        requires fee { contract.now.delivery ≤ 10000 }
        requires small { Small row.now }
        ensures value { result ≡ row_outcome (M.holding self.now.rule.now) self.now.state.now price (Some contract.now) row.now }
        ensures near { Near 1 result }
    {
        let state = self.state;
        let mark = price * state.closing;
        let old = contract.previous * state.rate;
        let result = row.result(mark, old, state.rate);
        if is_delivered(state.day, contract) {
            Outcome {
                result,
                fee: delivery_fee(contract, row),
                margin: 0,
            }
        } else {
            Outcome {
                result,
                fee: 0,
                margin: held_margin(self.rule, mark, row, contract.ratio),
            }
        }
    }

    // What one row comes to; an empty place has nothing to settle.
    fn row_outcome(&self, account: usize, place: usize) -> Outcome
        requires account { account < 32 }
        requires place { place < 12 }
        ensures value { result ≡ outcome_at (M.holding self.now.rule.now) self.now.state.now self.now.prices account place }
        ensures near { Near 1 result }
    {
        let Some(contract) = &self.state.places[place] else {
            return Outcome::NONE;
        };
        let row = self.state.table.at(account, place);
        self.contract_outcome(self.prices[place], contract, &row)
    }

    fn outcome(&self, account: usize) -> Outcome
        requires { account < 32 }
        ensures value { result ≡ outcome_to (M.holding self.now.rule.now) self.now.state.now self.now.prices account 12 }
        ensures near { Near 12 result }
    {
        let mut sums = Outcome::NONE;
        // By the place, since the row, the price and the contract are taken by it and the sums' bound grows with it.
        for place in 0..PLACES {
            sums = sums.plus(self.row_outcome(account, place));
        }
        sums
    }

    // By the index, here and in what follows: arrays have no zip, a Vec would need the heap, and what is known of an element
    // is known by its place.
    fn outcomes(&self) -> Outcomes
        ensures { result.each ≡ tabulated (λ a. outcome_to (M.holding self.now.rule.now) self.now.state.now self.now.prices a 12) 32 }
    {
        Outcomes {
            each: array::from_fn(|account| self.outcome(account)),
        }
    }

    fn account(&self, account: usize, outcome: &Outcome) -> Account
        requires account { account < 32 }
        requires near { Near 12 outcome.now }
        ensures { result ≡ settled_account (account_at self.now.state.now account) outcome.now }
    {
        settle(&self.state.accounts[account], outcome)
    }

    fn accounts(&self, outcomes: &Outcomes) -> [Account; 32]
        ensures { result ≡ tabulated (λ a. settled_account (account_at self.now.state.now a) (slice_index_or outcomes.now.each a nothing)) 32 }
    {
        array::from_fn(|account| self.account(account, &outcomes.each[account]))
    }

    fn places(&self) -> [Option<Contract>; 12]
        ensures { result ≡ tabulated (λ p. settled_place self.now.state.now.day (slice_index self.now.prices p) (place_at self.now.state.now p)) 12 }
    {
        array::from_fn(|place| settle_place(
            self.state.day,
            self.prices[place],
            &self.state.places[place],
        ))
    }

    fn contracts(&self) -> [Option<Settled>; 12]
        ensures { result ≡ tabulated (λ p. settled_contract (slice_index self.now.prices p) (place_at self.now.state.now p)) 12 }
    {
        array::from_fn(|place| settle_contract(self.prices[place], &self.state.places[place]))
    }
}

// Each account's outcome, within what twelve rows come to.
#[derive(Drop)]
struct Outcomes {
    each: [Outcome; 32],
    ghost near: { NearAll each },
}

impl Outcomes {
    fn changes(&self) -> [i64; 32]
        ensures { result ≡ tabulated (λ a. change_of (slice_index_or self.now.each a nothing)) 32 }
    {
        array::from_fn(|account| change(&self.each[account]))
    }

    fn delivery_fees(&self) -> u64
        ensures value { result ≡ sum_by (λ o. o.fee) self.now.each }
        ensures most { result ≤ 38400000000000 }
    {
        self.each.iter().map(|outcome| outcome.fee).sum()
    }
}

// Available gains the results and the fall in margin, less the delivery fees.
fn settle(account: &Account, outcome: &Outcome) -> Account
    requires room { Roomy account.now }
    requires near { Near 12 outcome.now }
    ensures { result ≡ settled_account account.now outcome.now }
{
    let freed = account.margin as i64 - (outcome.margin + outcome.fee) as i64;
    Account {
        available: account.available + outcome.result + freed,
        margin: outcome.margin,
        ..*account
    }
}

fn change(outcome: &Outcome) -> i64
    requires { Near 12 outcome.now }
    ensures { result ≡ change_of outcome.now }
{
    outcome.result - outcome.fee as i64
}

fn with_previous(contract: &Contract, price: u64) -> Contract
    ensures { result ≡ repriced contract.now price }
{
    Contract {
        previous: price,
        ..*contract
    }
}

fn settle_place(day: u64, price: u64, held: &Option<Contract>) -> Option<Contract>
    ensures { result ≡ settled_place day price held.now }
{
    held.as_ref()
        .filter(|contract| !is_delivered(day, contract))
        .map(|contract| with_previous(contract, price))
}

fn settle_row(day: u64, held: &Option<Contract>, row: &Row) -> Row
    ensures { result ≡ settled_row day held.now row.now }
{
    if held
        .as_ref()
        .is_some_and(|contract| is_delivered(day, contract))
    {
        EMPTY
    } else {
        *row
    }
}

fn settle_contract(price: u64, held: &Option<Contract>) -> Option<Settled>
    ensures { result ≡ settled_contract price held.now }
{
    held.as_ref().map(|contract| Settled {
        number: contract.number,
        price,
    })
}

fn table(state: &State) -> Table
    ensures { result ≡ settled_table state.now }
{
    Table {
        rows: array::from_fn(|k| settle_row(
            state.day,
            &state.places[k % PLACES],
            &state.table.rows[k],
        )),
    }
}

// The whole settling, of a ledger that is closed.
pub(crate) fn settled<P: PriceRule, M: MarginRule>(
    state: &State,
    price: &P,
    margin: &M,
) -> (State, Settlement)
    requires sound { Sound state.now }
    requires closed { is_closed state.now.stage ≡ true }
    ensures state { result.0 ≡ settled_by (M.holding margin.now) state.now (prices_of (P.meaning price.now) state.now) }
    ensures near { (a : ℕ) → a < 32 → Near 12 (outcome_to (M.holding margin.now) state.now (prices_of (P.meaning price.now) state.now) a 12) }
    ensures said { result.1 ≡ settlement (M.holding margin.now) state.now (prices_of (P.meaning price.now) state.now) }
{
    let settling = Settling {
        state,
        rule: margin,
        prices: prices(state, price),
    };
    let outcomes = settling.outcomes();
    let next = State {
        stage: Stage::Resting,
        rate: state.closing,
        fees: state.fees + outcomes.delivery_fees(),
        accounts: settling.accounts(&outcomes),
        places: settling.places(),
        table: table(state),
        ..*state
    };
    let said = Settlement {
        contracts: settling.contracts(),
        changes: outcomes.changes(),
    };
    (next, said)
}
