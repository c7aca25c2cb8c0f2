// Laying a closing permit down in its book, and taking it up again (docs/RULES.md, "Lay-down", "Take-up").
ghost use Rattle.std.specs.Prelude.{◌≡◌, true, false};
ghost use Rattle.book.specs.Gates.{closing_gate, spent_for, handed_out};
ghost use Rattle.book.specs.Permits.{noted, take_up_closing_refusal, closing_permit};

use super::Book;
use crate::permit::ClosingPermit;
use refusal::Refusal;

impl Book {
    // Spends a closing permit; the book keeps the note of it.
    pub fn lay_down_closing(
        &mut self,
        permit: ClosingPermit,
    ) -> Result<(), (ClosingPermit, Refusal)>
        ensures answer { result ≡ spent_for permit tt (closing_gate self.old.desk self.old.ledger.state permit) }
        ensures desk { self.new.desk ≡ noted (closing_gate self.old.desk self.old.ledger.state permit) self.old.desk true }
        ensures ledger { self.new.ledger.state ≡ self.old.ledger.state }
    {
        self.lay_down(permit)
    }

    // Hands out the closing permit that is laid down.
    pub fn take_up_closing(&mut self) -> Result<ClosingPermit, Refusal>
        ensures answer { result ≡ handed_out (closing_permit self.old.desk self.old.ledger.state) (take_up_closing_refusal self.old.desk self.old.ledger.state) }
        ensures desk { self.new.desk ≡ noted (take_up_closing_refusal self.old.desk self.old.ledger.state) self.old.desk false }
        ensures ledger { self.new.ledger.state ≡ self.old.ledger.state }
    {
        self.take_up()
    }
}
