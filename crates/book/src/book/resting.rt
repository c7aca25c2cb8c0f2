// The calls of a resting book (docs/RULES.md, "Listing", "Ratio", "Day").
ghost use Rattle.std.specs.Prelude.{◌≡◌};
ghost use Rattle.refusal.specs.Reasons.{answered};
ghost use Rattle.ledger.specs.Days.{open_state};
ghost use Rattle.ledger.specs.Listing.{list_state, reweigh_state};
ghost use Rattle.book.specs.Resting.{listing_refusal, ratio_refusal, day_refusal, day_answer};

use super::Book;
use crate::permit::DayPermit;
use ledger::state::Listing;
use refusal::Refusal;

impl Book {
    // A new contract at an empty place.
    #[tactic(auto, using(crate::proofs::Staged::list_stage))]
    pub fn list(&mut self, listing: Listing) -> Result<(), Refusal>
        ensures answer { result ≡ answered (listing_refusal self.old.desk self.old.ledger.state listing) }
        ensures desk { self.new.desk ≡ self.old.desk }
        ensures ledger { self.new.ledger.state ≡ list_state (listing_refusal self.old.desk self.old.ledger.state listing) self.old.ledger.state listing }
    {
        self.check_resting()?;
        self.ledger.list(listing)
    }

    // Another margin ratio for a contract.
    #[tactic(auto, using(crate::proofs::Staged::reweigh_stage))]
    pub fn set_ratio(&mut self, place: u64, ratio: u64) -> Result<(), Refusal>
        ensures answer { result ≡ answered (ratio_refusal self.old.desk self.old.ledger.state place ratio) }
        ensures desk { self.new.desk ≡ self.old.desk }
        ensures ledger { self.new.ledger.state ≡ reweigh_state (ratio_refusal self.old.desk self.old.ledger.state place ratio) self.old.ledger.state place ratio }
    {
        self.check_resting()?;
        self.ledger.reweigh(place, ratio)
    }

    // Opens the next day and hands out its permit.
    pub fn open_day(&mut self) -> Result<DayPermit, Refusal>
        ensures answer { result ≡ day_answer self.old.desk self.old.ledger.state (day_refusal self.old.desk self.old.ledger.state) }
        ensures desk { self.new.desk ≡ self.old.desk }
        ensures ledger { self.new.ledger.state ≡ open_state (day_refusal self.old.desk self.old.ledger.state) self.old.ledger.state }
    {
        self.check_resting()?;
        let room = self.desk.has_room(0);
        self.ledger.open(room)?;
        Ok(self.permit())
    }
}
