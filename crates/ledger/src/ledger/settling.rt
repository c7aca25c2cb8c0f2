// The settling of a ledger (docs/RULES.md, "Settling").
ghost use Rattle.std.specs.Prelude.{◌≡◌};
ghost use Rattle.ledger.specs.Settle.{revalue_answer, revalue_state};

use super::Ledger;
use crate::settling::settled;
use crate::state::{Settlement, Stage};
use refusal::Refusal;
use rules::margin::MarginRule;
use rules::price::PriceRule;

impl Ledger {
    // Marks every contract to market, under the rules that the caller brings. A ledger that is closed always settles.
    pub fn revalue<P: PriceRule, M: MarginRule>(
        &mut self,
        price: &P,
        margin: &M,
    ) -> Result<Settlement, Refusal>
        ensures answer { result ≡ revalue_answer (P.meaning price.now) (M.holding margin.now) self.old.state }
        ensures state { self.new.state ≡ revalue_state (P.meaning price.now) (M.holding margin.now) self.old.state }
    {
        if self.state.stage != Stage::Closed {
            return Err(Refusal::WrongPhase);
        }
        let (next, said) = settled(&self.state, price, margin);
        self.state = next;
        Ok(said)
    }
}
