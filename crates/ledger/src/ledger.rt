// A ledger: its plain state, and the invariant beside it, so that no ledger can exist without it.
ghost use Rattle.ledger.specs.Sound.{RangesIn, FeesIn, RowsIn, PathsIn, TermsIn, DaysIn, DeliveriesIn, BalanceIn, TradedIn, VacantIn, AccountsIn, CountsIn};

use crate::state::State;

pub mod banking;
pub mod contracts;
pub mod days;
pub mod questions;
pub mod settling;
pub mod trading;

// Each change of a ledger, in the files below, is two lines, its check and its new state: one method for all would take two
// closures, and its contract would say less than each of theirs.
#[derive(Drop)]
pub struct Ledger {
    state: State,
    ghost ranges: { RangesIn state },
    ghost fees: { FeesIn state },
    ghost rows: { RowsIn state },
    ghost paths: { PathsIn state },
    ghost terms: { TermsIn state },
    ghost days: { DaysIn state },
    ghost deliveries: { DeliveriesIn state },
    ghost balance: { BalanceIn state },
    ghost traded: { TradedIn state },
    ghost vacant: { VacantIn state },
    ghost accounts: { AccountsIn state },
    ghost counts: { CountsIn state },
}
