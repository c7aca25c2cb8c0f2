// An idle book, and its founding (docs/RULES.md, "Founding").
ghost use Rattle.std.specs.Prelude.{◌≡◌, length};
ghost use Rattle.refusal.specs.Reasons.{answered};
ghost use Rattle.book.specs.Gates.{why};
ghost use Rattle.book.specs.Founding.{idle_desk, idle_state, found_gate, found_refusal, found_desk, found_state, found_bytes};

use super::Book;
use crate::desk::Desk;
use archive::write::{SLOT_BYTES, begin};
use ledger::ledger::Ledger;
use refusal::Refusal;
use rules::units::MIN_RATE_UNITS;

// Book numbers fit two bytes.
const MAX_BOOK: u64 = 65_535;

impl Desk {
    fn idle() -> Desk
        ensures { result ≡ idle_desk }
    {
        Desk {
            founded: false,
            number: 0,
            slots: 0,
            used: 0,
            laid: false,
            tips: [0; 32],
            settled: [None; 12],
        }
    }

    fn check_founding(&self, length: usize, number: u64) -> Result<(), Refusal>
        ensures { why result ≡ found_gate self.now length number }
    {
        if self.mismatches(length) {
            return Err(Refusal::ArchiveLength);
        }
        if self.founded {
            return Err(Refusal::WrongPhase);
        }
        if !(1..=MAX_BOOK).contains(&number) {
            return Err(Refusal::OutOfRange);
        }
        Ok(())
    }
}

impl Book {
    // An idle book, to be filled by founding.
    pub fn new() -> Book
        ensures desk { result.desk ≡ idle_desk }
        ensures ledger { result.ledger.state ≡ idle_state }
    {
        Book {
            desk: Desk::idle(),
            ledger: Ledger::start(MIN_RATE_UNITS).unwrap(),
        }
    }

    // Fills an idle book, which then rests, and begins its archive.
    pub fn found(&mut self, archive: &mut [u8], number: u64, rate: u64) -> Result<(), Refusal>
        ensures answer { result ≡ answered (found_refusal self.old.desk (length archive.old) number rate) }
        ensures desk { self.new.desk ≡ found_desk (found_refusal self.old.desk (length archive.old) number rate) self.old.desk (length archive.old) number }
        ensures ledger { self.new.ledger.state ≡ found_state (found_refusal self.old.desk (length archive.old) number rate) self.old.ledger.state rate }
        ensures bytes { archive.new ≡ found_bytes (found_refusal self.old.desk (length archive.old) number rate) archive.old number }
    {
        self.desk.check_founding(archive.len(), number)?;
        let ledger = Ledger::start(rate)?;
        begin(archive, number as u16).unwrap();
        let desk = Desk {
            founded: true,
            number,
            slots: (archive.len() / SLOT_BYTES) as u32,
            ..Desk::idle()
        };
        *self = Book { desk, ledger };
        Ok(())
    }
}
