// Permits (docs/RULES.md, "Permits"). Neither can be copied or let go: it is handed back, or spent by end, settle or
// lay-down. Only the calls of a book make one, so its numbers are those of a book and of a day that it opened.
ghost use Rattle.std.specs.Prelude.{◌≡◌, ℕ, true, refl};
ghost use Rattle.book.specs.declared.desk.Phase.{Phase};
ghost use Rattle.book.specs.declared.desk.Phase.TheVariants.{Day, Closing};
ghost use Rattle.book.specs.Desk.{is_working};

use crate::desk::Phase;

// Leave to change a book on an open day.
pub struct DayPermit {
    pub(crate) book: u64,
    pub(crate) day: u64,
}

// Leave to settle a day that is ended. Two types, so that the compiler tells a day permit from a closing one; no macro
// writes an impl here, so each has its own.
pub struct ClosingPermit {
    pub(crate) book: u64,
    pub(crate) day: u64,
}

// What a book does with a permit of either kind. Only this crate has the trait, so nobody else makes or spends one.
pub(crate) trait Permit {
    ghost PHASE: { Phase };

    ghost book: { Self → ℕ };

    ghost day: { Self → ℕ };

    ghost naming: { ℕ → ℕ → Self };

    // The phase in which it is good.
    const PHASE: Phase;

    fn naming(number: u64, today: u64) -> Self
        ensures { result ≡ naming number today };

    fn book(&self) -> u64
        ensures { result ≡ book self.now };

    fn day(&self) -> u64
        ensures { result ≡ day self.now };

    fn spend(self);

    ghost works: { is_working PHASE ≡ true };
}

impl Permit for DayPermit {
    ghost PHASE = { Day };

    ghost book = { λ permit. permit.book };

    ghost day = { λ permit. permit.day };

    ghost naming = { λ book day. record { book = book; day = day } };

    const PHASE: Phase = Phase::Day;

    fn naming(number: u64, today: u64) -> DayPermit {
        DayPermit {
            book: number,
            day: today,
        }
    }

    fn book(&self) -> u64 {
        self.book
    }

    fn day(&self) -> u64 {
        self.day
    }

    fn spend(self) {
        let DayPermit { book: _, day: _ } = self;
    }

    ghost works = { refl };
}

impl Permit for ClosingPermit {
    ghost PHASE = { Closing };

    ghost book = { λ permit. permit.book };

    ghost day = { λ permit. permit.day };

    ghost naming = { λ book day. record { book = book; day = day } };

    const PHASE: Phase = Phase::Closing;

    fn naming(number: u64, today: u64) -> ClosingPermit {
        ClosingPermit {
            book: number,
            day: today,
        }
    }

    fn book(&self) -> u64 {
        self.book
    }

    fn day(&self) -> u64 {
        self.day
    }

    fn spend(self) {
        let ClosingPermit { book: _, day: _ } = self;
    }

    ghost works = { refl };
}
