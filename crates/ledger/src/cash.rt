// Pay-ins and pay-outs (docs/RULES.md, "Cash").
ghost use Rattle.std.specs.Prelude.{◌≡◌, ◌+◌, ◌-◌, ◌*◌, ◌<◌, ◌≤◌, pos, ◌≤ℤ◌, int_lt};
ghost use Rattle.rules.specs.Units.{fen_units, kept_yuan, yuan_units};
ghost use Rattle.ledger.specs.Places.{account_at, with_account};
ghost use Rattle.ledger.specs.Seats.{Seated};
ghost use Rattle.ledger.specs.Cash.{credit_refusal, credited_account, debit_refusal, debited_account};

use crate::seat::AccountSeat;
use crate::state::{Account, Stage, State};
use refusal::Refusal;
use rules::units::{DAY_PAY_OUTS, FEN_UNITS, KEPT_YUAN, MAX_PAID_IN_FEN, YUAN_UNITS};

// The account that the cash is paid into, or the first reason why not.
pub(crate) fn check_credit(
    state: &State,
    account: u64,
    fen: u64,
    room: bool,
) -> Result<AccountSeat, Refusal>
    ensures { Seated (credit_refusal state.now account fen room) account result }
{
    if state.stage != Stage::Open {
        return Err(Refusal::WrongPhase);
    }
    let at = AccountSeat::try_from(account)?;
    let paid = state.accounts[at.index()].paid;
    if fen == 0 || paid.saturating_add(fen) > MAX_PAID_IN_FEN {
        return Err(Refusal::CashAmount);
    }
    if !room {
        return Err(Refusal::NoRoom);
    }
    Ok(at)
}

// A pay-out leaves the account what it keeps; in 128 bits, since any amount may be asked for.
fn falls_short(account: &Account, fen: u64) -> bool
    ensures { result ≡ int_lt account.now.available (pos (fen_units * fen + kept_yuan * yuan_units)) }
{
    let kept = KEPT_YUAN * YUAN_UNITS;
    (account.available as i128) < FEN_UNITS as i128 * fen as i128 + kept as i128
}

// The account that the cash is paid out of, or the first reason why not.
pub(crate) fn check_debit(
    state: &State,
    account: u64,
    fen: u64,
    room: bool,
) -> Result<AccountSeat, Refusal>
    ensures { Seated (debit_refusal state.now account fen room) account result }
{
    if state.stage != Stage::Open {
        return Err(Refusal::WrongPhase);
    }
    let at = AccountSeat::try_from(account)?;
    if fen == 0 {
        return Err(Refusal::CashAmount);
    }
    let payer = state.accounts[at.index()];
    if falls_short(&payer, fen) {
        return Err(Refusal::NotAvailable);
    }
    if payer.payouts >= DAY_PAY_OUTS {
        return Err(Refusal::ThirdPayOut);
    }
    if !room {
        return Err(Refusal::NoRoom);
    }
    Ok(at)
}

fn with_credit(account: Account, fen: u64) -> Account
    requires amount { fen ≤ 1000000000000 }
    requires paid { account.paid ≤ 1000000000000 }
    requires room { account.available ≤ℤ pos 9000000000000000000 }
    ensures { result ≡ credited_account account fen }
{
    Account {
        available: account.available + (FEN_UNITS * fen) as i64,
        paid: account.paid + fen,
        ..account
    }
}

pub(crate) fn credited(state: &State, at: AccountSeat, fen: u64) -> State
    requires amount { fen ≤ 1000000000000 }
    requires paid { (account_at state.now at).paid ≤ 1000000000000 }
    requires room { (account_at state.now at).available ≤ℤ pos 9000000000000000000 }
    ensures { result ≡ with_account state.now at (credited_account (account_at state.now at) fen) }
{
    state.with_account(at, |account| with_credit(account, fen))
}

fn with_debit(account: Account, fen: u64) -> Account
    requires covered { pos (100 * fen + 500000) ≤ℤ account.available }
    requires few { account.payouts ≤ 2 }
    ensures { result ≡ debited_account account fen }
{
    Account {
        available: account.available - (FEN_UNITS * fen) as i64,
        payouts: account.payouts + 1,
        ..account
    }
}

pub(crate) fn debited(state: &State, at: AccountSeat, fen: u64) -> State
    requires covered { pos (100 * fen + 500000) ≤ℤ (account_at state.now at).available }
    requires few { (account_at state.now at).payouts ≤ 2 }
    ensures { result ≡ with_account state.now at (debited_account (account_at state.now at) fen) }
{
    state.with_account(at, |account| with_debit(account, fen))
}
