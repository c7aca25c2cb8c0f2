// What a book answers without changing (docs/RULES.md, "Questions"). A question needs no permit.
ghost use Rattle.std.specs.Prelude.{◌≡◌};
ghost use Rattle.ledger.specs.Questions.{funds_at};
ghost use Rattle.book.specs.Desk.{phase_of, free_slots};
ghost use Rattle.book.specs.Questions.{rate_answer, settled_answer};

use super::Book;
use crate::desk::Phase;
use ledger::state::{Funds, Settled};
use refusal::Refusal;

impl Book {
    pub fn phase(&self) -> Phase
        ensures { result ≡ phase_of self.now.desk self.now.ledger.state.stage }
    {
        self.desk.phase(self.ledger.stage())
    }

    // Days opened since founding.
    pub fn day(&self) -> u64
        ensures { result ≡ self.now.ledger.state.day }
    {
        self.ledger.day()
    }

    // The trade rate; an idle book has none.
    pub fn rate(&self) -> Result<u64, Refusal>
        ensures { result ≡ rate_answer self.now.desk self.now.ledger.state }
    {
        if !self.desk.founded {
            return Err(Refusal::WrongPhase);
        }
        Ok(self.ledger.rate())
    }

    // The fees taken since founding, in units.
    pub fn fees(&self) -> u64
        ensures { result ≡ self.now.ledger.state.fees }
    {
        self.ledger.fees()
    }

    // The slots of the archive that no entry has used.
    pub fn free(&self) -> u64
        ensures { result ≡ free_slots self.now.desk }
    {
        self.desk.free()
    }

    // An account's available funds, margin, equity and cash call, in units.
    pub fn funds(&self, account: u64) -> Result<Funds, Refusal>
        ensures { result ≡ funds_at self.now.ledger.state account }
    {
        self.ledger.funds(account)
    }

    // The contract that the last settling settled at a place, with its price.
    pub fn settled(&self, place: u64) -> Result<Option<Settled>, Refusal>
        ensures { result ≡ settled_answer self.now.desk place }
    {
        let at = place.checked_sub(1).ok_or(Refusal::OutOfRange)?;
        self.desk
            .settled
            .get(at as usize)
            .copied()
            .ok_or(Refusal::OutOfRange)
    }
}
