// What laying down and taking up are for a permit of either kind (docs/RULES.md, "Lay-down", "Take-up").
ghost use Rattle.std.specs.Prelude.{◌≡◌, true, false};
ghost use Rattle.book.specs.Gates.{permit_gate, spent_for, handed_out};
ghost use Rattle.book.specs.Permits.{noted, take_up_refusal};

use super::Book;
use super::gates::hand_back;
use crate::permit::Permit;
use refusal::Refusal;

impl Book {
    // Spends a permit; the book keeps the note of it.
    pub(crate) fn lay_down<P: Permit>(&mut self, permit: P) -> Result<(), (P, Refusal)>
        ensures answer { result ≡ spent_for permit tt (permit_gate P.PHASE self.old.desk self.old.ledger.state (P.book permit) (P.day permit)) }
        ensures desk { self.new.desk ≡ noted (permit_gate P.PHASE self.old.desk self.old.ledger.state (P.book permit) (P.day permit)) self.old.desk true }
        ensures ledger { self.new.ledger.state ≡ self.old.ledger.state }
    {
        let answer = self.check_permit(&permit);
        hand_back(permit, answer)?.spend();
        self.desk.laid = true;
        Ok(())
    }

    // Hands out the permit that is laid down.
    pub(crate) fn take_up<P: Permit>(&mut self) -> Result<P, Refusal>
        ensures answer { result ≡ handed_out (P.naming self.old.desk.number self.old.ledger.state.day) (take_up_refusal P.PHASE self.old.desk self.old.ledger.state) }
        ensures desk { self.new.desk ≡ noted (take_up_refusal P.PHASE self.old.desk self.old.ledger.state) self.old.desk false }
        ensures ledger { self.new.ledger.state ≡ self.old.ledger.state }
    {
        if self.phase() != P::PHASE || !self.desk.laid {
            return Err(Refusal::WrongPhase);
        }
        self.desk.laid = false;
        Ok(self.permit())
    }

    // A permit of this book and its day.
    pub(crate) fn permit<P: Permit>(&self) -> P
        ensures { result ≡ P.naming self.now.desk.number self.now.ledger.state.day }
    {
        P::naming(self.desk.number, self.day())
    }
}
