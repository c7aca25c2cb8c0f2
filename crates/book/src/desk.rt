// What a book keeps beside its ledger: its number, its place in the archive, and whether its permit is laid down
// (docs/RULES.md, "The book's own figures").
ghost use Rattle.std.specs.Prelude.{◌≡◌, ℕ};
ghost use Rattle.book.specs.Desk.{phase_in, phase_of, wrong_length, free_slots, has_room};

use archive::write::{SLOT_BYTES, is_allowed};
use ledger::state::{Settled, Stage};

// A settling writes one entry for each account.
const KEPT_SLOTS: u64 = 32;

// A stage of the ledger, or none yet: one word for each, as the rules name them.
#[derive(Clone, Copy, Debug, PartialEq, Eq)]
pub enum Phase {
    Idle,
    Resting,
    Day,
    Closing,
}

#[derive(Clone, Copy, Debug, PartialEq, Eq)]
pub struct Desk {
    // no Option of number and slots: the definitions of book and law read this public record field by field, and after
    // its gate each call would have to take the Option apart again
    pub founded: bool,
    pub number: u64,
    // of the archive, slot 0 among them
    pub slots: u32,
    // entries written so far
    pub used: u32,
    // whether the permit of the phase is laid down; a note alone, since a desk is copied and a permit must not be
    pub laid: bool,
    // the slot of each account's latest entry; 0 is what an entry's next says for none in the archive's format
    pub tips: [u32; 32],
    // the contracts of the last settling, by place
    pub settled: [Option<Settled>; 12],
}

impl From<Stage> for Phase {
    ghost from_gives = { λ stage phase. phase ≡ phase_in stage };

    // Of a founded book.
    fn from(stage: Stage) -> Phase {
        match stage {
            Stage::Resting => Phase::Resting,
            Stage::Open => Phase::Day,
            Stage::Closed => Phase::Closing,
        }
    }
}

impl Desk {
    pub(crate) fn phase(&self, stage: Stage) -> Phase
        ensures { result ≡ phase_of self.now stage }
    {
        if self.founded {
            stage.into()
        } else {
            Phase::Idle
        }
    }

    // An archive of another length than founding's, or while idle of one that is not allowed.
    pub(crate) fn mismatches(&self, length: usize) -> bool
        ensures { result ≡ wrong_length self.now length }
    {
        if self.founded {
            length != SLOT_BYTES * self.slots as usize
        } else {
            !is_allowed(length)
        }
    }

    // Slots that no entry has used; slot 0 is none of them.
    pub(crate) fn free(&self) -> u64
        ensures { result ≡ free_slots self.now }
    {
        (self.slots as u64).saturating_sub(self.used as u64 + 1)
    }

    // Whether the slots of a settling stay free after so many entries.
    pub(crate) fn has_room(&self, entries: u64) -> bool
        ensures { result ≡ has_room self.now entries }
    {
        self.free()
            .checked_sub(KEPT_SLOTS)
            .is_some_and(|rest| entries <= rest)
    }
}
