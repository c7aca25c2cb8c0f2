// Laying a day permit down in its book, and taking it up again (docs/RULES.md, "Lay-down", "Take-up").
ghost use Rattle.std.specs.Prelude.{◌≡◌, true, false};
ghost use Rattle.book.specs.Gates.{day_gate, spent_for, handed_out};
ghost use Rattle.book.specs.Permits.{noted, take_up_day_refusal, day_permit};

use super::Book;
use crate::permit::DayPermit;
use refusal::Refusal;

impl Book {
    // Spends a day permit; the book keeps the note of it.
    pub fn lay_down_day(&mut self, permit: DayPermit) -> Result<(), (DayPermit, Refusal)>
        ensures answer { result ≡ spent_for permit tt (day_gate self.old.desk self.old.ledger.state permit) }
        ensures desk { self.new.desk ≡ noted (day_gate self.old.desk self.old.ledger.state permit) self.old.desk true }
        ensures ledger { self.new.ledger.state ≡ self.old.ledger.state }
    {
        self.lay_down(permit)
    }

    // Hands out the day permit that is laid down.
    pub fn take_up_day(&mut self) -> Result<DayPermit, Refusal>
        ensures answer { result ≡ handed_out (day_permit self.old.desk self.old.ledger.state) (take_up_day_refusal self.old.desk self.old.ledger.state) }
        ensures desk { self.new.desk ≡ noted (take_up_day_refusal self.old.desk self.old.ledger.state) self.old.desk false }
        ensures ledger { self.new.ledger.state ≡ self.old.ledger.state }
    {
        self.take_up()
    }
}
