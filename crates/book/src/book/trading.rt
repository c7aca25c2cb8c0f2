// Quotes, trades and delivery prices of a book (docs/RULES.md, "Quote", "Trade", "Delivery price").
ghost use Rattle.std.specs.Prelude.{◌≡◌, length};
ghost use Rattle.refusal.specs.Reasons.{answered};
ghost use Rattle.ledger.specs.Quotes.{quote_state, deliver_state};
ghost use Rattle.ledger.specs.Trade.{bargain, exchange_answer, exchange_state};
ghost use Rattle.book.specs.Entries.{desk_with, bytes_with};
ghost use Rattle.book.specs.Gates.{handed_back};
ghost use Rattle.book.specs.Trading.{quoting_refusal, delivery_refusal, trade_bargain, trade_refusal, trade_moves, DealtIn};

use super::Book;
use super::gates::hand_back;
use crate::permit::DayPermit;
use ledger::state::Deal;
use refusal::Refusal;
use rules::margin::MarginRule;

impl Book {
    // The closing bid and ask so far; 0 is none.
    pub fn quote(
        &mut self,
        permit: DayPermit,
        place: u64,
        bid: u64,
        ask: u64,
    ) -> Result<DayPermit, (DayPermit, Refusal)>
        ensures answer { result ≡ handed_back permit (quoting_refusal self.old.desk self.old.ledger.state permit place bid ask) }
        ensures desk { self.new.desk ≡ self.old.desk }
        ensures ledger { self.new.ledger.state ≡ quote_state (quoting_refusal self.old.desk self.old.ledger.state permit place bid ask) self.old.ledger.state place bid ask }
    {
        let answer = self.keep_quote(&permit, place, bid, ask);
        hand_back(permit, answer)
    }

    #[tactic(auto, using(crate::proofs::Staged::quote_stage))]
    fn keep_quote(
        &mut self,
        permit: &DayPermit,
        place: u64,
        bid: u64,
        ask: u64,
    ) -> Result<(), Refusal>
        ensures answer { result ≡ answered (quoting_refusal self.old.desk self.old.ledger.state permit.now place bid ask) }
        ensures desk { self.new.desk ≡ self.old.desk }
        ensures ledger { self.new.ledger.state ≡ quote_state (quoting_refusal self.old.desk self.old.ledger.state permit.now place bid ask) self.old.ledger.state place bid ask }
    {
        self.check_permit(permit)?;
        self.ledger.quote(place, bid, ask)
    }

    // The price at which a contract is settled on its last day.
    pub fn set_delivery_price(
        &mut self,
        permit: DayPermit,
        place: u64,
        price: u64,
    ) -> Result<DayPermit, (DayPermit, Refusal)>
        ensures answer { result ≡ handed_back permit (delivery_refusal self.old.desk self.old.ledger.state permit place price) }
        ensures desk { self.new.desk ≡ self.old.desk }
        ensures ledger { self.new.ledger.state ≡ deliver_state (delivery_refusal self.old.desk self.old.ledger.state permit place price) self.old.ledger.state place price }
    {
        let answer = self.keep_delivery_price(&permit, place, price);
        hand_back(permit, answer)
    }

    #[tactic(auto, using(crate::proofs::Staged::deliver_stage))]
    fn keep_delivery_price(
        &mut self,
        permit: &DayPermit,
        place: u64,
        price: u64,
    ) -> Result<(), Refusal>
        ensures answer { result ≡ answered (delivery_refusal self.old.desk self.old.ledger.state permit.now place price) }
        ensures desk { self.new.desk ≡ self.old.desk }
        ensures ledger { self.new.ledger.state ≡ deliver_state (delivery_refusal self.old.desk self.old.ledger.state permit.now place price) self.old.ledger.state place price }
    {
        self.check_permit(permit)?;
        self.ledger.deliver(place, price)
    }

    // A trade between two accounts, under the margin rule that the caller brings.
    pub fn trade<M: MarginRule>(
        &mut self,
        permit: DayPermit,
        archive: &mut [u8],
        rule: &M,
        deal: Deal,
    ) -> Result<DayPermit, (DayPermit, Refusal)>
        ensures answer { result ≡ handed_back permit (trade_refusal (M.opening rule.now) self.old.desk self.old.ledger.state (length archive.old) permit deal) }
        ensures desk { self.new.desk ≡ desk_with self.old.desk (trade_moves (trade_bargain (M.opening rule.now) self.old.desk self.old.ledger.state (length archive.old) permit deal) self.old.ledger.state deal) }
        ensures ledger { self.new.ledger.state ≡ exchange_state (trade_bargain (M.opening rule.now) self.old.desk self.old.ledger.state (length archive.old) permit deal) self.old.ledger.state deal }
        ensures bytes { archive.new ≡ bytes_with self.old.desk archive.old (trade_moves (trade_bargain (M.opening rule.now) self.old.desk self.old.ledger.state (length archive.old) permit deal) self.old.ledger.state deal) }
    {
        let answer = self.strike(&permit, archive, rule, deal);
        hand_back(permit, answer)
    }

    fn strike<M: MarginRule>(
        &mut self,
        permit: &DayPermit,
        archive: &mut [u8],
        rule: &M,
        deal: Deal,
    ) -> Result<(), Refusal>
        ensures answer { result ≡ answered (trade_refusal (M.opening rule.now) self.old.desk self.old.ledger.state (length archive.old) permit.now deal) }
        ensures desk { self.new.desk ≡ desk_with self.old.desk (trade_moves (trade_bargain (M.opening rule.now) self.old.desk self.old.ledger.state (length archive.old) permit.now deal) self.old.ledger.state deal) }
        ensures ledger { self.new.ledger.state ≡ exchange_state (trade_bargain (M.opening rule.now) self.old.desk self.old.ledger.state (length archive.old) permit.now deal) self.old.ledger.state deal }
        ensures bytes { archive.new ≡ bytes_with self.old.desk archive.old (trade_moves (trade_bargain (M.opening rule.now) self.old.desk self.old.ledger.state (length archive.old) permit.now deal) self.old.ledger.state deal) }
    {
        self.check_archive(archive.len(), permit)?;
        let room = self.desk.has_room(2);
        let fee = self.exchange(rule, deal, room)?;
        self.write_fees(archive, deal, fee);
        Ok(())
    }

    // The ledger's part of a trade, and what its fees need to be entered. Of its own, so that a bug in the steps of a trade is
    // refused there.
    #[tactic(auto, using(crate::proofs::Striking::exchange_stage))]
    fn exchange<M: MarginRule>(&mut self, rule: &M, deal: Deal, room: bool) -> Result<u64, Refusal>
        ensures answer { result ≡ exchange_answer (bargain (M.opening rule.now) self.old.ledger.state deal room) deal }
        ensures desk { self.new.desk ≡ self.old.desk }
        ensures ledger { self.new.ledger.state ≡ exchange_state (bargain (M.opening rule.now) self.old.ledger.state deal room) self.old.ledger.state deal }
        ensures dealt { DealtIn deal room result }
    {
        self.ledger.exchange(rule, deal, room)
    }
}
