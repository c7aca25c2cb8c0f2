// What the money of a ledger is, told from the history of accepted transitions alone (docs/PROMISES.md, "The tally").
#![tactic(auto)]

ghost use Rattle.std.specs.Prelude.{◌≡◌};
ghost use Rattle.tally.specs.Agreement.{LedgersAgree, Tallied, equity_at};
ghost use Rattle.tally.specs.Worked.{WorkedTally};

use ledger::ledger::Ledger;
use refusal::Refusal;

// An account's equity, in units: whatever was tried of the ledger, it is what the accepted transitions come to.
pub fn equity(ledger: &Ledger, account: u64) -> Result<i64, Refusal>
    ensures value { result ≡ equity_at ledger.now.state account }
    ensures tallied { Tallied ledger.now.state account result }
    ensures agree { LedgersAgree }
{
    held(ledger, account)
}

// A function of its own, so that a bug in the figure is refused here: `using(..)` at `equity` leaves `tallied`, `agree` open.
fn held(ledger: &Ledger, account: u64) -> Result<i64, Refusal>
    ensures { result ≡ equity_at ledger.now.state account }
{
    ledger.funds(account).map(|funds| funds.equity)
}

// The tally of the two worked days.
#[tactic(auto, using(crate::proofs::Example::worked))]
pub fn worked_tally()
    ensures { WorkedTally }
{}
