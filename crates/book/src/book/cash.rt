// Pay-ins and pay-outs of a book (docs/RULES.md, "Pay-in", "Pay-out").
ghost use Rattle.std.specs.Prelude.{◌≡◌, length, OnOk};
ghost use Rattle.refusal.specs.Reasons.{answered};
ghost use Rattle.ledger.specs.Cash.{credit_state, debit_state};
ghost use Rattle.book.specs.Cash.{pay_in_refusal, pay_in_moves, pay_out_refusal, pay_out_moves};
ghost use Rattle.book.specs.Entries.{desk_with, bytes_with};
ghost use Rattle.book.specs.Gates.{handed_back, why};
ghost use Rattle.book.specs.Held.{Takes};

use super::Book;
use super::gates::hand_back;
use super::writing::taken;
use crate::permit::DayPermit;
use archive::entry::Kind;
use refusal::Refusal;
use rules::units::FEN_UNITS;

impl Book {
    // Cash paid into an account.
    pub fn pay_in(
        &mut self,
        permit: DayPermit,
        archive: &mut [u8],
        account: u64,
        fen: u64,
    ) -> Result<DayPermit, (DayPermit, Refusal)>
        ensures answer { result ≡ handed_back permit (pay_in_refusal self.old.desk self.old.ledger.state (length archive.old) permit account fen) }
        ensures desk { self.new.desk ≡ desk_with self.old.desk (pay_in_moves (pay_in_refusal self.old.desk self.old.ledger.state (length archive.old) permit account fen) self.old.ledger.state account fen) }
        ensures ledger { self.new.ledger.state ≡ credit_state (pay_in_refusal self.old.desk self.old.ledger.state (length archive.old) permit account fen) self.old.ledger.state account fen }
        ensures bytes { archive.new ≡ bytes_with self.old.desk archive.old (pay_in_moves (pay_in_refusal self.old.desk self.old.ledger.state (length archive.old) permit account fen) self.old.ledger.state account fen) }
    {
        let answer = self.credit(&permit, archive, account, fen);
        hand_back(permit, answer)
    }

    fn credit(
        &mut self,
        permit: &DayPermit,
        archive: &mut [u8],
        account: u64,
        fen: u64,
    ) -> Result<(), Refusal>
        ensures answer { result ≡ answered (pay_in_refusal self.old.desk self.old.ledger.state (length archive.old) permit.now account fen) }
        ensures desk { self.new.desk ≡ desk_with self.old.desk (pay_in_moves (pay_in_refusal self.old.desk self.old.ledger.state (length archive.old) permit.now account fen) self.old.ledger.state account fen) }
        ensures ledger { self.new.ledger.state ≡ credit_state (pay_in_refusal self.old.desk self.old.ledger.state (length archive.old) permit.now account fen) self.old.ledger.state account fen }
        ensures bytes { archive.new ≡ bytes_with self.old.desk archive.old (pay_in_moves (pay_in_refusal self.old.desk self.old.ledger.state (length archive.old) permit.now account fen) self.old.ledger.state account fen) }
    {
        self.keep_credit(permit, archive.len(), account, fen)?;
        self.write(archive, account, Kind::PayIn, (FEN_UNITS * fen) as i64);
        Ok(())
    }

    // The ledger's part of a pay-in, whose entry must have room. Of its own, so that a bug in a refusal is refused here.
    #[tactic(auto, using(crate::proofs::Staged::credit_stage, crate::proofs::Answering::why_answered))]
    fn keep_credit(
        &mut self,
        permit: &DayPermit,
        length: usize,
        account: u64,
        fen: u64,
    ) -> Result<(), Refusal>
        ensures answer { why result ≡ pay_in_refusal self.old.desk self.old.ledger.state length permit.now account fen }
        ensures desk { self.new.desk ≡ self.old.desk }
        ensures ledger { self.new.ledger.state ≡ credit_state (pay_in_refusal self.old.desk self.old.ledger.state length permit.now account fen) self.old.ledger.state account fen }
        ensures room { OnOk result (Takes self.old.desk length 33) }
    {
        self.check_archive(length, permit)?;
        let room = self.desk.has_room(1);
        self.ledger.credit(account, fen, room)
    }

    // Cash paid out of an account.
    pub fn pay_out(
        &mut self,
        permit: DayPermit,
        archive: &mut [u8],
        account: u64,
        fen: u64,
    ) -> Result<DayPermit, (DayPermit, Refusal)>
        ensures answer { result ≡ handed_back permit (pay_out_refusal self.old.desk self.old.ledger.state (length archive.old) permit account fen) }
        ensures desk { self.new.desk ≡ desk_with self.old.desk (pay_out_moves (pay_out_refusal self.old.desk self.old.ledger.state (length archive.old) permit account fen) self.old.ledger.state account fen) }
        ensures ledger { self.new.ledger.state ≡ debit_state (pay_out_refusal self.old.desk self.old.ledger.state (length archive.old) permit account fen) self.old.ledger.state account fen }
        ensures bytes { archive.new ≡ bytes_with self.old.desk archive.old (pay_out_moves (pay_out_refusal self.old.desk self.old.ledger.state (length archive.old) permit account fen) self.old.ledger.state account fen) }
    {
        let answer = self.debit(&permit, archive, account, fen);
        hand_back(permit, answer)
    }

    fn debit(
        &mut self,
        permit: &DayPermit,
        archive: &mut [u8],
        account: u64,
        fen: u64,
    ) -> Result<(), Refusal>
        ensures answer { result ≡ answered (pay_out_refusal self.old.desk self.old.ledger.state (length archive.old) permit.now account fen) }
        ensures desk { self.new.desk ≡ desk_with self.old.desk (pay_out_moves (pay_out_refusal self.old.desk self.old.ledger.state (length archive.old) permit.now account fen) self.old.ledger.state account fen) }
        ensures ledger { self.new.ledger.state ≡ debit_state (pay_out_refusal self.old.desk self.old.ledger.state (length archive.old) permit.now account fen) self.old.ledger.state account fen }
        ensures bytes { archive.new ≡ bytes_with self.old.desk archive.old (pay_out_moves (pay_out_refusal self.old.desk self.old.ledger.state (length archive.old) permit.now account fen) self.old.ledger.state account fen) }
    {
        self.keep_debit(permit, archive.len(), account, fen)?;
        self.write(archive, account, Kind::PayOut, taken(FEN_UNITS * fen));
        Ok(())
    }

    // The ledger's part of a pay-out, likewise.
    #[tactic(auto, using(crate::proofs::Staged::debit_stage, crate::proofs::Answering::why_answered))]
    fn keep_debit(
        &mut self,
        permit: &DayPermit,
        length: usize,
        account: u64,
        fen: u64,
    ) -> Result<(), Refusal>
        ensures answer { why result ≡ pay_out_refusal self.old.desk self.old.ledger.state length permit.now account fen }
        ensures desk { self.new.desk ≡ self.old.desk }
        ensures ledger { self.new.ledger.state ≡ debit_state (pay_out_refusal self.old.desk self.old.ledger.state length permit.now account fen) self.old.ledger.state account fen }
        ensures room { OnOk result (Takes self.old.desk length 33) }
    {
        self.check_archive(length, permit)?;
        let room = self.desk.has_room(1);
        self.ledger.debit(account, fen, room)
    }
}
