// Every numbered refusal of the product, with its number and its layer (docs/RULES.md, "Refusals").
// A later refusal is one more case with the next number; no case is ever renumbered.
#![tactic(auto)]

ghost use Rattle.std.specs.Prelude.{◌≡◌, Some};
ghost use Rattle.refusal.specs.Numbered.{number_of, layer_of, number_said, refused_text};

use std::error::Error;
use std::fmt;

// Why a call, a line or a reading was turned down.
#[derive(Clone, Copy, Debug, PartialEq, Eq)]
pub enum Refusal {
    // by the program that makes the calls
    ArchiveLength,
    WrongPhase,
    ForeignPermit,
    OutOfRange,
    // by the operator
    RateRange,
    PlaceState,
    ContractNumber,
    ContractTerms,
    NoDaysLeft,
    DeliveryPrice,
    // by the bank desk
    CashAmount,
    NotAvailable,
    ThirdPayOut,
    // by the venue
    SameTrader,
    QuantityRange,
    PriceLimits,
    NotHeld,
    SideCeiling,
    DayCeiling,
    ShortOfMargin,
    // by anyone who writes to the archive
    NoRoom,
    // by the instruction file
    LineLength,
    UnknownWord,
    FieldCount,
    BadField,
    // by the holder of an archive
    NotAnArchive,
    BrokenChain,
}

// The part of the product that the print-out names beside a refusal's number.
#[derive(Clone, Copy, Debug, PartialEq, Eq)]
pub enum Layer {
    Text,
    Archive,
    Book,
}

impl Refusal {
    // Written out and by no discriminants: with these, two equal numbers would never come before the contract.
    pub fn number(self) -> u8
        ensures { result ≡ number_of self }
    {
        match self {
            Refusal::ArchiveLength => 1,
            Refusal::WrongPhase => 2,
            Refusal::ForeignPermit => 3,
            Refusal::OutOfRange => 4,
            Refusal::RateRange => 5,
            Refusal::PlaceState => 6,
            Refusal::ContractNumber => 7,
            Refusal::ContractTerms => 8,
            Refusal::NoDaysLeft => 9,
            Refusal::DeliveryPrice => 10,
            Refusal::CashAmount => 11,
            Refusal::NotAvailable => 12,
            Refusal::ThirdPayOut => 13,
            Refusal::SameTrader => 14,
            Refusal::QuantityRange => 15,
            Refusal::PriceLimits => 16,
            Refusal::NotHeld => 17,
            Refusal::SideCeiling => 18,
            Refusal::DayCeiling => 19,
            Refusal::ShortOfMargin => 20,
            Refusal::NoRoom => 21,
            Refusal::LineLength => 22,
            Refusal::UnknownWord => 23,
            Refusal::FieldCount => 24,
            Refusal::BadField => 25,
            Refusal::NotAnArchive => 26,
            Refusal::BrokenChain => 27,
        }
    }

    pub fn layer(self) -> Layer
        ensures { result ≡ layer_of self }
    {
        match self {
            Refusal::ArchiveLength | Refusal::NoRoom => Layer::Archive,
            Refusal::LineLength | Refusal::UnknownWord | Refusal::FieldCount | Refusal::BadField =>
                Layer::Text,
            _ => Layer::Book,
        }
    }
}

impl fmt::Display for Refusal {
    ghost output = { λ refusal. Some (refused_text refusal) };

    fn fmt<W: fmt::Write>(&self, f: &mut fmt::Formatter<W>) -> fmt::Result {
        write!(f, "refused {}", self.number())
    }
}

impl Error for Refusal {}

// What a program prints for an answer: the number of the refusal, or 0 for a call that was done.
pub fn said(answer: Result<(), Refusal>) -> u8
    ensures { result ≡ number_said answer }
{
    answer.err().map_or(0, Refusal::number)
}
