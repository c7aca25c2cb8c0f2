// What a ledger answers without changing (docs/RULES.md, "The book", "Settling").
ghost use Rattle.std.specs.Prelude.{◌≡◌, ◌-◌, ◌≤◌, pos, neg_ℤ, ◌≤ℤ◌};
ghost use Rattle.ledger.specs.Places.{equity};
ghost use Rattle.ledger.specs.Questions.{call_of, funds_of, funds_at, contract_at, limits_at, position_at};

use super::Ledger;
use crate::quotes::limits;
use crate::seat::{AccountSeat, PlaceSeat};
use crate::state::{Account, Contract, Funds, Row, Stage};
use refusal::Refusal;
use rules::limits::Limits;

// The amount by which available is below zero.
fn call(available: i64) -> u64
    ensures { result ≡ call_of available }
{
    if available < 0 {
        available.unsigned_abs()
    } else {
        0
    }
}

fn funds(account: &Account) -> Funds
    requires margin { account.now.margin ≤ 8000000000000000000 }
    requires least { neg_ℤ (pos 8000000000000000000) ≤ℤ equity account.now }
    requires most { equity account.now ≤ℤ pos 8000000000000000000 }
    ensures { result ≡ funds_of account.now }
{
    Funds {
        available: account.available,
        margin: account.margin,
        equity: account.available + account.margin as i64,
        call: call(account.available),
    }
}

impl Ledger {
    // An account's available funds, margin, equity and cash call.
    pub fn funds(&self, account: u64) -> Result<Funds, Refusal>
        ensures { result ≡ funds_at self.now.state account }
    {
        let at = AccountSeat::try_from(account)?;
        Ok(funds(&self.state.accounts[at.index()]))
    }

    // All accounts, account 1 first.
    pub fn accounts(&self) -> [Account; 32]
        ensures { result ≡ self.now.state.accounts }
    {
        self.state.accounts
    }

    // The fees collected since the start, in units.
    pub fn fees(&self) -> u64
        ensures { result ≡ self.now.state.fees }
    {
        self.state.fees
    }

    pub fn day(&self) -> u64
        ensures { result ≡ self.now.state.day }
    {
        self.state.day
    }

    // The trade rate.
    pub fn rate(&self) -> u64
        ensures { result ≡ self.now.state.rate }
    {
        self.state.rate
    }

    pub fn stage(&self) -> Stage
        ensures { result ≡ self.now.state.stage }
    {
        self.state.stage
    }

    // The contract at a place, with the figures of its day.
    pub fn contract(&self, place: u64) -> Result<Option<Contract>, Refusal>
        ensures { result ≡ contract_at self.now.state place }
    {
        let at = PlaceSeat::try_from(place)?;
        Ok(self.state.places[at.index()])
    }

    // The limits of the contract at a place, on the day of this ledger.
    pub fn limits(&self, place: u64) -> Result<Limits, Refusal>
        ensures { result ≡ limits_at self.now.state place }
    {
        let contract = self.state.contract_at(place.try_into()?)?;
        Ok(limits(self.state.day, &contract))
    }

    // An account's position in a place.
    pub fn position(&self, account: u64, place: u64) -> Result<Row, Refusal>
        ensures { result ≡ position_at self.now.state account place }
    {
        let account = AccountSeat::try_from(account)?;
        let place = PlaceSeat::try_from(place)?;
        Ok(self.state.table.at(account.index(), place.index()))
    }
}
