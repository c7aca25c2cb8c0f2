// Trades of a ledger (docs/RULES.md, "Trades").
ghost use Rattle.std.specs.Prelude.{◌≡◌};
ghost use Rattle.ledger.specs.Trade.{bargain, exchange_answer, exchange_state};

use super::Ledger;
use crate::state::Deal;
use crate::trades::{exchanged, fee, weigh};
use refusal::Refusal;
use rules::margin::MarginRule;

impl Ledger {
    // A trade between two accounts, under the margin rule that the caller brings; `room` says whether the archive has
    // room for its two entries. The answer is the fee of each side, in units.
    pub fn exchange<M: MarginRule>(
        &mut self,
        rule: &M,
        deal: Deal,
        room: bool,
    ) -> Result<u64, Refusal>
        ensures answer { result ≡ exchange_answer (bargain (M.opening rule.now) self.old.state deal room) deal }
        ensures state { self.new.state ≡ exchange_state (bargain (M.opening rule.now) self.old.state deal room) self.old.state deal }
    {
        let (bargain, parties) = weigh(&self.state, rule, &deal, room)?;
        self.state = exchanged(&self.state, &deal, &parties, &bargain);
        Ok(fee(&bargain.contract, &deal))
    }
}
