// The end of a day, and its settling (docs/RULES.md, "End", "Settle").
ghost use Rattle.std.specs.Prelude.{◌≡◌, length};
ghost use Rattle.ledger.specs.Days.{close_state};
ghost use Rattle.book.specs.Closing.{end_refusal, closing_for, settle_refusal, settle_state, settle_moves, settle_desk};
ghost use Rattle.book.specs.Entries.{desk_with, bytes_with};
ghost use Rattle.book.specs.Gates.{spent_for, why};

use super::Book;
use super::gates::hand_back;
use crate::permit::{ClosingPermit, DayPermit, Permit};
use refusal::Refusal;
use rules::margin::MarginRule;
use rules::price::PriceRule;

impl Book {
    // Ends the day at its settlement rate: the day permit is given up for the closing permit.
    pub fn end_day(
        &mut self,
        permit: DayPermit,
        rate: u64,
    ) -> Result<ClosingPermit, (DayPermit, Refusal)>
        ensures answer { result ≡ spent_for permit (closing_for permit) (end_refusal self.old.desk self.old.ledger.state permit rate) }
        ensures desk { self.new.desk ≡ self.old.desk }
        ensures ledger { self.new.ledger.state ≡ close_state (end_refusal self.old.desk self.old.ledger.state permit rate) self.old.ledger.state rate }
    {
        let answer = self.close(&permit, rate);
        let DayPermit { book, day } = hand_back(permit, answer)?;
        Ok(ClosingPermit { book, day })
    }

    #[tactic(auto, using(crate::proofs::Answering::why_answered))]
    fn close(&mut self, permit: &DayPermit, rate: u64) -> Result<(), Refusal>
        ensures answer { why result ≡ end_refusal self.old.desk self.old.ledger.state permit.now rate }
        ensures desk { self.new.desk ≡ self.old.desk }
        ensures ledger { self.new.ledger.state ≡ close_state (end_refusal self.old.desk self.old.ledger.state permit.now rate) self.old.ledger.state rate }
    {
        self.check_permit(permit)?;
        self.ledger.close(rate)
    }

    // Marks the book to market under the rules that the caller brings, and writes an entry for each account. The closing
    // permit is given up, and the book rests.
    pub fn settle<P: PriceRule, M: MarginRule>(
        &mut self,
        permit: ClosingPermit,
        archive: &mut [u8],
        price: &P,
        margin: &M,
    ) -> Result<(), (ClosingPermit, Refusal)>
        ensures answer { result ≡ spent_for permit tt (settle_refusal self.old.desk self.old.ledger.state (length archive.old) permit) }
        ensures desk { self.new.desk ≡ desk_with (settle_desk (settle_refusal self.old.desk self.old.ledger.state (length archive.old) permit) (P.meaning price.now) (M.holding margin.now) self.old.desk self.old.ledger.state) (settle_moves (settle_refusal self.old.desk self.old.ledger.state (length archive.old) permit) (P.meaning price.now) (M.holding margin.now) self.old.ledger.state) }
        ensures ledger { self.new.ledger.state ≡ settle_state (settle_refusal self.old.desk self.old.ledger.state (length archive.old) permit) (P.meaning price.now) (M.holding margin.now) self.old.ledger.state }
        ensures bytes { archive.new ≡ bytes_with (settle_desk (settle_refusal self.old.desk self.old.ledger.state (length archive.old) permit) (P.meaning price.now) (M.holding margin.now) self.old.desk self.old.ledger.state) archive.old (settle_moves (settle_refusal self.old.desk self.old.ledger.state (length archive.old) permit) (P.meaning price.now) (M.holding margin.now) self.old.ledger.state) }
    {
        let answer = self.check_archive(archive.len(), &permit);
        hand_back(permit, answer)?.spend();
        // a day that is ended always settles
        let said = self.ledger.revalue(price, margin).unwrap();
        self.write_settlement(archive, &said);
        Ok(())
    }
}
