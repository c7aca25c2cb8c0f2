// What a line says, or what is wrong with it (docs/RULES.md, "Instruction lines").
ghost use Rattle.std.specs.Prelude.{Some};
ghost use Rattle.lines.specs.Instruction.{side_text, instruction_text, spoiled_text};

use refusal::Refusal;
use std::error::Error;
use std::fmt;

// Whether one side of a trade opens or closes. The ledger has its own `Effect`: the lines know of no ledger.
#[derive(Clone, Copy, Debug, PartialEq, Eq)]
pub enum Side {
    Opens,
    Closes,
}

// An instruction with its fields in the order in which the line has them.
#[derive(Clone, Copy, Debug, PartialEq, Eq)]
pub enum Instruction {
    Found {
        book: u64,
        rate: u64,
    },
    List {
        place: u64,
        number: u64,
        base: u64,
        ratio: u64,
        fee: u64,
        delivery: u64,
        last: u64,
    },
    Ratio {
        place: u64,
        ratio: u64,
    },
    Day,
    In {
        account: u64,
        fen: u64,
    },
    Out {
        account: u64,
        fen: u64,
    },
    Quote {
        place: u64,
        bid: u64,
        ask: u64,
    },
    Trade {
        place: u64,
        price: u64,
        quantity: u64,
        buyer: u64,
        buying: Side,
        seller: u64,
        selling: Side,
    },
    Deliver {
        place: u64,
        price: u64,
    },
    End {
        rate: u64,
    },
    Settle,
}

// Why a line is no instruction, and the column, counted from 1, at which that shows.
#[derive(Clone, Copy, Debug, PartialEq, Eq)]
pub struct Spoiled {
    pub refusal: Refusal,
    pub column: usize,
}

impl fmt::Display for Side {
    ghost output = { λ s. Some (side_text s) };

    fn fmt<W: fmt::Write>(&self, f: &mut fmt::Formatter<W>) -> fmt::Result {
        f.write_str(match self {
            Side::Opens => "opens",
            Side::Closes => "closes",
        })
    }
}

impl fmt::Display for Instruction {
    ghost output = { λ i. Some (instruction_text i) };

    fn fmt<W: fmt::Write>(&self, f: &mut fmt::Formatter<W>) -> fmt::Result {
        match self {
            Instruction::Found { book, rate } => write!(f, "found {book} {rate}"),
            Instruction::List {
                place,
                number,
                base,
                ratio,
                fee,
                delivery,
                last,
            } => write!(
                f,
                "list {place} {number} {base} {ratio} {fee} {delivery} {last}"
            ),
            Instruction::Ratio { place, ratio } => write!(f, "ratio {place} {ratio}"),
            Instruction::Day => write!(f, "day"),
            Instruction::In { account, fen } => write!(f, "in {account} {fen}"),
            Instruction::Out { account, fen } => write!(f, "out {account} {fen}"),
            Instruction::Quote { place, bid, ask } => write!(f, "quote {place} {bid} {ask}"),
            Instruction::Trade {
                place,
                price,
                quantity,
                buyer,
                buying,
                seller,
                selling,
            } => write!(
                f,
                "trade {place} {price} {quantity} {buyer} {buying} {seller} {selling}"
            ),
            Instruction::Deliver { place, price } => write!(f, "deliver {place} {price}"),
            Instruction::End { rate } => write!(f, "end {rate}"),
            Instruction::Settle => write!(f, "settle"),
        }
    }
}

impl fmt::Display for Spoiled {
    ghost output = { λ s. Some (spoiled_text s) };

    fn fmt<W: fmt::Write>(&self, f: &mut fmt::Formatter<W>) -> fmt::Result {
        write!(f, "{} {}", self.refusal.number(), self.column)
    }
}

impl Error for Spoiled {}
