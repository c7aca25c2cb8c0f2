// Writing an entry about an account of the book (docs/ARCHIVE.md, "Writing").
ghost use Rattle.std.specs.Prelude.{◌≡◌, ◌≤◌, true, length, pos, neg_ℤ};
ghost use Rattle.ledger.specs.Places.{known_account, is_resting};
ghost use Rattle.book.specs.Closing.{with_settled};
ghost use Rattle.book.specs.Entries.{moved, entered_desk, entered_bytes, desk_with, bytes_with, fee_moves, settlement_moves};
ghost use Rattle.book.specs.Held.{Takes};

use super::Book;
use crate::entries::{Movement, index_of};
use archive::entry::Kind;
use ledger::state::{Deal, Settlement};

// The change of equity when units leave an account.
pub(crate) fn taken(units: u64) -> i64
    requires { units ≤ 8000000000000000000 }
    ensures { result ≡ neg_ℤ (pos units) }
{
    -(units as i64)
}

impl Book {
    // What an account has now, beside what was changed.
    fn movement(&self, account: u64, kind: Kind, change: i64) -> Movement
        requires { known_account account ≡ true }
        ensures { result ≡ moved self.now.ledger.state account kind change }
    {
        let accounts = self.ledger.accounts();
        Movement::of(
            &accounts[index_of(account)],
            account,
            self.ledger.day(),
            kind,
            change,
        )
    }

    // Writes one entry, after which the slots of a settling are still free.
    pub(crate) fn write(&mut self, archive: &mut [u8], account: u64, kind: Kind, change: i64)
        requires known { known_account account ≡ true }
        requires room { Takes self.old.desk (length archive.old) 33 }
        ensures desk { self.new.desk ≡ entered_desk self.old.desk (moved self.old.ledger.state account kind change) }
        ensures ledger { self.new.ledger.state ≡ self.old.ledger.state }
        ensures bytes { archive.new ≡ entered_bytes self.old.desk archive.old (moved self.old.ledger.state account kind change) }
    {
        let moved = self.movement(account, kind, change);
        self.desk.enter(archive, &moved);
    }

    // The two entries of a trade, the buyer's and then the seller's.
    pub(crate) fn write_fees(&mut self, archive: &mut [u8], deal: Deal, fee: u64)
        requires fee { fee ≤ 8000000000000000000 }
        requires known { (known_account deal.buyer ≡ true) × (known_account deal.seller ≡ true) }
        requires room { Takes self.old.desk (length archive.old) 34 }
        ensures desk { self.new.desk ≡ desk_with self.old.desk (fee_moves self.old.ledger.state deal fee) }
        ensures ledger { self.new.ledger.state ≡ self.old.ledger.state }
        ensures bytes { archive.new ≡ bytes_with self.old.desk archive.old (fee_moves self.old.ledger.state deal fee) }
    {
        let change = taken(fee);
        self.write(archive, deal.buyer, Kind::TradeFee, change);
        self.write(archive, deal.seller, Kind::TradeFee, change);
    }

    // The contracts settled, kept at the desk, and an entry for each account of a book that rests again.
    pub(crate) fn write_settlement(&mut self, archive: &mut [u8], said: &Settlement)
        requires rests { is_resting self.old.ledger.state.stage ≡ true }
        requires room { Takes self.old.desk (length archive.old) 32 }
        ensures desk { self.new.desk ≡ desk_with (with_settled self.old.desk said.now.contracts) (settlement_moves self.old.ledger.state.day self.old.ledger.state.accounts said.now.changes) }
        ensures ledger { self.new.ledger.state ≡ self.old.ledger.state }
        ensures bytes { archive.new ≡ bytes_with (with_settled self.old.desk said.now.contracts) archive.old (settlement_moves self.old.ledger.state.day self.old.ledger.state.accounts said.now.changes) }
    {
        let accounts = self.ledger.accounts();
        let day = self.day();
        self.desk.settled = said.contracts;
        self.desk
            .enter_settlement(archive, day, &accounts, &said.changes);
    }
}
