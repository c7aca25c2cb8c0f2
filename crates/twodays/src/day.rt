// A day of a book, from its opening to its settling. A day holds its book and the permit that is out, which is good for it:
// each step hands the day on whatever the book answers, so a program never has to let a permit go.
ghost use Rattle.std.specs.Prelude.{◌≡◌, None, Option, length, true};
ghost use Rattle.std.proofs.Props.{props};
ghost use Rattle.refusal.specs.declared.Refusal.{Refusal};
ghost use Rattle.refusal.specs.Reasons.{answered};
ghost use Rattle.rules.specs.Margin.{rated};
ghost use Rattle.ledger.specs.Cash.{credit_state, debit_state};
ghost use Rattle.ledger.specs.Quotes.{deliver_state};
ghost use Rattle.ledger.specs.Trade.{exchange_state};
ghost use Rattle.book.specs.declared.permit.DayPermit.{DayPermit};
ghost use Rattle.book.specs.Cash.{pay_in_refusal, pay_out_refusal};
ghost use Rattle.book.specs.Closing.{settle_refusal};
ghost use Rattle.book.specs.Gates.{day_gate, closing_gate, handed_back};
ghost use Rattle.book.specs.Permits.{with_laid};
ghost use Rattle.book.specs.Trading.{delivery_refusal, trade_bargain, trade_refusal};
ghost use Rattle.twodays.specs.Permits.{IsSpent, close_refusal};
ghost use Rattle.twodays.specs.Steps.{StaysOpen, Steps, Trades};

use book::book::Book;
use book::permit::{ClosingPermit, DayPermit};
use ledger::state::Deal;
use refusal::Refusal;
use rules::margin::BothSides;
use rules::price::Freight;

// What a call says when it has nothing to hand out.
pub type Answer = Result<(), Refusal>;

// A book on an open day.
pub struct OpenDay {
    book: Book,
    permit: DayPermit,
    ghost good: { day_gate book.desk book.ledger.state permit ≡ None } by { Prim.hlevel props },
}

// A book whose day is ended and not settled. A type of its own, so that nobody trades on such a day.
pub struct EndedDay {
    book: Book,
    permit: ClosingPermit,
    ghost good: { closing_gate book.desk book.ledger.state permit ≡ None } by { Prim.hlevel props },
}

// The permit that a call handed back, and its answer. By a match, since the permit goes with either arm.
fn parted(reply: Result<DayPermit, (DayPermit, Refusal)>) -> (DayPermit, Answer)
    ensures { (p : DayPermit) (o : Option Refusal) → reply ≡ handed_back p o → (result.0 ≡ p) × (result.1 ≡ answered o) }
{
    match reply {
        Ok(permit) => (permit, Ok(())),
        Err((permit, refusal)) => (permit, Err(refusal)),
    }
}

impl OpenDay {
    ghost use Rattle.twodays.specs.Days.{Opens, Ends};

    // Opens the next day.
    pub fn open(mut book: Book) -> Result<OpenDay, (Book, Refusal)>
        ensures { Opens book result }
    {
        // a match and no `map_err`: the book goes with the permit or with the refusal, and a closure would keep it from the other
        match book.open_day() {
            Ok(permit) => Ok(OpenDay { book, permit }),
            Err(refusal) => Err((book, refusal)),
        }
    }

    // Brings the permit to a call of the book that hands it back.
    fn step<C>(self, call: C) -> (OpenDay, Answer)
    where
        C: FnOnce(&mut Book, DayPermit) -> Result<DayPermit, (DayPermit, Refusal)>,
        requires callable { C.IsAlwaysCallable call }
        requires open { StaysOpen C.FnOnce call self.book self.permit }
        ensures permit { result.0.permit ≡ self.permit }
        ensures steps { Steps C.FnOnce call self.book self.permit result.1 result.0.book }
    {
        let OpenDay { mut book, permit } = self;
        let (permit, answer) = parted(call(&mut book, permit));
        (OpenDay { book, permit }, answer)
    }

    pub fn pay_in(self, archive: &mut [u8], account: u64, fen: u64) -> (OpenDay, Answer)
        ensures permit { result.0.permit ≡ self.permit }
        ensures answer { result.1 ≡ answered (pay_in_refusal self.book.desk self.book.ledger.state (length archive.old) self.permit account fen) }
        ensures ledger { result.0.book.ledger.state ≡ credit_state (pay_in_refusal self.book.desk self.book.ledger.state (length archive.old) self.permit account fen) self.book.ledger.state account fen }
    {
        self.step(|book, permit| book.pay_in(permit, archive, account, fen))
    }

    pub fn pay_out(self, archive: &mut [u8], account: u64, fen: u64) -> (OpenDay, Answer)
        ensures permit { result.0.permit ≡ self.permit }
        ensures answer { result.1 ≡ answered (pay_out_refusal self.book.desk self.book.ledger.state (length archive.old) self.permit account fen) }
        ensures ledger { result.0.book.ledger.state ≡ debit_state (pay_out_refusal self.book.desk self.book.ledger.state (length archive.old) self.permit account fen) self.book.ledger.state account fen }
    {
        self.step(|book, permit| book.pay_out(permit, archive, account, fen))
    }

    pub fn trade(self, archive: &mut [u8], deal: Deal) -> (OpenDay, Answer)
        ensures permit { result.0.permit ≡ self.permit }
        ensures answer { result.1 ≡ answered (trade_refusal rated self.book.desk self.book.ledger.state (length archive.old) self.permit deal) }
        ensures ledger { result.0.book.ledger.state ≡ exchange_state (trade_bargain rated self.book.desk self.book.ledger.state (length archive.old) self.permit deal) self.book.ledger.state deal }
    {
        // Its clause is written out, since what is inferred of a call under a rule is too deep for the search.
        self.step(
            |book, permit|
                ensures { Trades book.old (length archive.entry.now) permit deal result book.new }
            { book.trade(permit, archive, &BothSides, deal) },
        )
    }

    pub fn deliver(self, place: u64, price: u64) -> (OpenDay, Answer)
        ensures permit { result.0.permit ≡ self.permit }
        ensures answer { result.1 ≡ answered (delivery_refusal self.book.desk self.book.ledger.state self.permit place price) }
        ensures ledger { result.0.book.ledger.state ≡ deliver_state (delivery_refusal self.book.desk self.book.ledger.state self.permit place price) self.book.ledger.state place price }
    {
        self.step(|book, permit| book.set_delivery_price(permit, place, price))
    }

    // A pay-in under the permit of a day that may be another book's: it comes back as it was, and this day goes on.
    pub fn pay_in_under(
        &mut self,
        stranger: OpenDay,
        archive: &mut [u8],
        account: u64,
        fen: u64,
    ) -> (OpenDay, Answer)
        ensures own { self.new.permit ≡ self.old.permit }
        ensures same { result.0.permit ≡ stranger.permit }
        ensures home { (result.0.book.desk ≡ stranger.book.desk) × (result.0.book.ledger.state ≡ stranger.book.ledger.state) }
        ensures answer { result.1 ≡ answered (pay_in_refusal self.old.book.desk self.old.book.ledger.state (length archive.old) stranger.permit account fen) }
        ensures ledger { self.new.book.ledger.state ≡ credit_state (pay_in_refusal self.old.book.desk self.old.book.ledger.state (length archive.old) stranger.permit account fen) self.old.book.ledger.state account fen }
    {
        let OpenDay { book, permit } = stranger;
        let (permit, answer) = parted(self.book.pay_in(permit, archive, account, fen));
        (OpenDay { book, permit }, answer)
    }

    // Spends the permit of a day that is not gone on with: the book notes it, and is otherwise as it was.
    pub fn put_away(self) -> Book
        ensures desk { result.desk ≡ with_laid self.book.desk true }
        ensures ledger { result.ledger.state ≡ self.book.ledger.state }
    {
        let OpenDay { mut book, permit } = self;
        book.lay_down_day(permit).unwrap();
        book
    }

    fn end(self, rate: u64) -> Result<EndedDay, (OpenDay, Refusal)>
        ensures { Ends self rate result }
    {
        let OpenDay { mut book, permit } = self;
        // a match, as in `open`
        match book.end_day(permit, rate) {
            Ok(permit) => Ok(EndedDay { book, permit }),
            Err((permit, refusal)) => Err((OpenDay { book, permit }, refusal)),
        }
    }

    // Ends the day and settles it. Where either is refused, the permit that is out then is laid down.
    pub fn close(self, archive: &mut [u8], rate: u64) -> (Book, Answer)
        ensures answer { result.1 ≡ answered (close_refusal self.book.desk self.book.ledger.state (length archive.old) self.permit rate) }
        ensures spent { IsSpent result.0.desk result.0.ledger.state result.1 }
    {
        match self.end(rate) {
            Ok(ended) => ended.settle(archive),
            Err((day, refusal)) => (day.put_away(), Err(refusal)),
        }
    }
}

impl EndedDay {
    // Apart from that of an open day, since a book has a lay-down for each kind of permit.
    fn put_away(self) -> Book
        ensures desk { result.desk ≡ with_laid self.book.desk true }
        ensures ledger { result.ledger.state ≡ self.book.ledger.state }
    {
        let EndedDay { mut book, permit } = self;
        book.lay_down_closing(permit).unwrap();
        book
    }

    fn settle(self, archive: &mut [u8]) -> (Book, Answer)
        ensures answer { result.1 ≡ answered (settle_refusal self.book.desk self.book.ledger.state (length archive.old) self.permit) }
        ensures spent { IsSpent result.0.desk result.0.ledger.state result.1 }
    {
        let EndedDay { mut book, permit } = self;
        match book.settle(permit, archive, &Freight, &BothSides) {
            Ok(()) => (book, Ok(())),
            Err((permit, refusal)) => (EndedDay { book, permit }.put_away(), Err(refusal)),
        }
    }
}
