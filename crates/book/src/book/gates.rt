// What a call asks before its own rules, and how its answer hands a permit back (docs/RULES.md, "How a call is judged").
ghost use Rattle.std.specs.Prelude.{◌≡◌, Option};
ghost use Rattle.refusal.specs.declared.Refusal.{Refusal};
ghost use Rattle.refusal.specs.Reasons.{answered};
ghost use Rattle.book.specs.Gates.{why, resting_gate, permit_gate, archive_gate, handed_back};

use super::Book;
use crate::desk::Phase;
use crate::permit::Permit;
use refusal::Refusal;

// The permit whatever the answer is, with the refusal if it is one. A permit is never let go, so no `map_err` can take it.
// Each call runs its own step first: with the step as a closure here, its answer and the archive's bytes stayed open.
pub(crate) fn hand_back<P>(permit: P, answer: Result<(), Refusal>) -> Result<P, (P, Refusal)>
    ensures back { result ≡ handed_back permit (why answer) }
    ensures told { (o : Option Refusal) → answer ≡ answered o → result ≡ handed_back permit o }
{
    match answer {
        Ok(()) => Ok(permit),
        Err(refusal) => Err((permit, refusal)),
    }
}

impl Book {
    pub(crate) fn check_resting(&self) -> Result<(), Refusal>
        ensures { why result ≡ resting_gate self.now.desk self.now.ledger.state }
    {
        if self.phase() != Phase::Resting {
            return Err(Refusal::WrongPhase);
        }
        Ok(())
    }

    pub(crate) fn check_permit<P: Permit>(&self, permit: &P) -> Result<(), Refusal>
        ensures { why result ≡ permit_gate P.PHASE self.now.desk self.now.ledger.state (P.book permit.now) (P.day permit.now) }
    {
        if self.phase() != P::PHASE || self.desk.laid {
            return Err(Refusal::WrongPhase);
        }
        if permit.book() != self.desk.number || permit.day() != self.day() {
            return Err(Refusal::ForeignPermit);
        }
        Ok(())
    }

    // What a call asks that is brought the archive too: first the archive's length, then the permit.
    pub(crate) fn check_archive<P: Permit>(&self, length: usize, permit: &P) -> Result<(), Refusal>
        ensures { why result ≡ archive_gate P.PHASE self.now.desk self.now.ledger.state length (P.book permit.now) (P.day permit.now) }
    {
        if self.desk.mismatches(length) {
            return Err(Refusal::ArchiveLength);
        }
        self.check_permit(permit)
    }
}
