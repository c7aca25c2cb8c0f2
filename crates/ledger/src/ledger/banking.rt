// Pay-ins and pay-outs of a ledger (docs/RULES.md, "Cash").
ghost use Rattle.std.specs.Prelude.{◌≡◌};
ghost use Rattle.refusal.specs.Reasons.{answered};
ghost use Rattle.ledger.specs.Cash.{credit_refusal, credit_state, debit_refusal, debit_state};

use super::Ledger;
use crate::cash::{check_credit, check_debit, credited, debited};
use refusal::Refusal;

impl Ledger {
    // Cash paid into an account; `room` says whether the archive has room for its entry.
    pub fn credit(&mut self, account: u64, fen: u64, room: bool) -> Result<(), Refusal>
        ensures answer { result ≡ answered (credit_refusal self.old.state account fen room) }
        ensures state { self.new.state ≡ credit_state (credit_refusal self.old.state account fen room) self.old.state account fen }
    {
        let at = check_credit(&self.state, account, fen, room)?;
        self.state = credited(&self.state, at, fen);
        Ok(())
    }

    // Cash paid out of an account, which keeps 50 yuan, twice a day at most.
    pub fn debit(&mut self, account: u64, fen: u64, room: bool) -> Result<(), Refusal>
        ensures answer { result ≡ answered (debit_refusal self.old.state account fen room) }
        ensures state { self.new.state ≡ debit_state (debit_refusal self.old.state account fen room) self.old.state account fen }
    {
        let at = check_debit(&self.state, account, fen, room)?;
        self.state = debited(&self.state, at, fen);
        Ok(())
    }
}
