// The start of a ledger, and its days (docs/RULES.md, "Founding", "Day", "End").
ghost use Rattle.std.specs.Prelude.{◌≡◌};
ghost use Rattle.refusal.specs.Reasons.{answered};
ghost use Rattle.ledger.specs.Days.{open_refusal, open_state, close_refusal, close_state};
ghost use Rattle.ledger.specs.Started.{Begins};

use super::Ledger;
use crate::days::{check_close, check_open, closed, is_bad_rate, opened, start};
use refusal::Refusal;

impl Ledger {
    // A ledger in which nothing is listed, held or paid.
    pub fn start(rate: u64) -> Result<Ledger, Refusal>
        ensures { Begins rate result }
    {
        if is_bad_rate(rate) {
            return Err(Refusal::RateRange);
        }
        Ok(Ledger { state: start(rate) })
    }

    // The next day; `room` says whether the archive has room for its settling.
    pub fn open(&mut self, room: bool) -> Result<(), Refusal>
        ensures answer { result ≡ answered (open_refusal self.old.state room) }
        ensures state { self.new.state ≡ open_state (open_refusal self.old.state room) self.old.state }
    {
        check_open(&self.state, room)?;
        self.state = opened(&self.state);
        Ok(())
    }

    // The end of the day, at its settlement rate.
    pub fn close(&mut self, rate: u64) -> Result<(), Refusal>
        ensures answer { result ≡ answered (close_refusal self.old.state rate) }
        ensures state { self.new.state ≡ close_state (close_refusal self.old.state rate) self.old.state rate }
    {
        check_close(&self.state, rate)?;
        self.state = closed(&self.state, rate);
        Ok(())
    }
}
