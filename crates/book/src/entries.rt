// The entries that a book writes: what moved of an account and what it then has (docs/RULES.md, "Archive";
// docs/ARCHIVE.md, "Writing"). Each goes into the slot after the used ones, and names its account's latest as its next.
ghost use Rattle.std.specs.Prelude.{◌≡◌, ℕ, ◌≤◌, ◌-◌, length};
ghost use Rattle.book.specs.Entries.{movement, entered_desk, entered_bytes, settlement_moves, desk_with, bytes_with};
ghost use Rattle.book.specs.Held.{SlotsIn, Takes};

use crate::desk::Desk;
use archive::entry::{Entry, Kind};
use archive::write::append;
use ledger::state::Account;

// Where an account stands in the book's arrays. Its number was accepted by the ledger or counted by a settling, so there is
// nothing to refuse.
pub(crate) fn index_of(account: u64) -> usize
    requires { (1 ≤ account) × (account ≤ 32) }
    ensures { result ≡ account - 1 }
{
    (account - 1) as usize
}

// One movement of an account's money, with what the account then has.
#[derive(Clone, Copy, Debug, PartialEq, Eq)]
pub struct Movement {
    pub account: u64,
    pub day: u64,
    pub kind: Kind,
    // of equity
    pub change: i64,
    pub available: i64,
    pub margin: u64,
}

impl Movement {
    pub(crate) fn of(holder: &Account, account: u64, day: u64, kind: Kind, change: i64) -> Movement
        ensures { result ≡ movement day account kind change holder.now }
    {
        Movement {
            account,
            day,
            kind,
            change,
            available: holder.available,
            margin: holder.margin,
        }
    }
}

impl Desk {
    // Writes one entry into the archive, which has a slot for it.
    pub(crate) fn enter(&mut self, archive: &mut [u8], moved: &Movement)
        requires known { (1 ≤ moved.now.account) × ((moved.now.account ≤ 32) × (moved.now.day ≤ 3000)) }
        requires slots { SlotsIn self.old }
        requires room { Takes self.old (length archive.old) 1 }
        ensures desk { self.new ≡ entered_desk self.old moved.now }
        ensures bytes { archive.new ≡ entered_bytes self.old archive.old moved.now }
    {
        let index = index_of(moved.account);
        // no From: the next is the desk's, and the casts rest on what is known here
        let entry = Entry {
            next: self.tips[index],
            day: moved.day as u16,
            kind: moved.kind,
            account: moved.account as u8,
            change: moved.change,
            available: moved.available,
            margin: moved.margin,
        };
        append(archive, self.used, entry).unwrap();
        self.used += 1;
        self.tips[index] = self.used;
    }

    // One entry for each account, account 1 first.
    pub(crate) fn enter_settlement(
        &mut self,
        archive: &mut [u8],
        day: u64,
        accounts: &[Account; 32],
        changes: &[i64; 32],
    )
        requires day { day ≤ 3000 }
        requires slots { SlotsIn self.old }
        requires room { Takes self.old (length archive.old) 32 }
        ensures desk { self.new ≡ desk_with self.old (settlement_moves day accounts.now changes.now) }
        ensures bytes { archive.new ≡ bytes_with self.old archive.old (settlement_moves day accounts.now changes.now) }
    {
        for (index, (holder, change)) in accounts.iter().zip(changes).enumerate() {
            let moved = Movement::of(holder, index as u64 + 1, day, Kind::Settlement, *change);
            self.enter(archive, &moved);
        }
    }
}
