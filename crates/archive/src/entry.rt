// What an archive holds: entries of four kinds (docs/ARCHIVE.md, "Entries" and "Kinds").
ghost use Rattle.std.specs.Prelude.{◌≡◌, ◌++◌, codes, decimal, Some};
ghost use Rattle.archive.specs.Kinds.{kind_byte, kind_name, kind_from};

use std::error::Error;
use std::fmt;

// Every book has the accounts 1 to 32. The rules have the same number: the archive rests on no other crate than refusal.
pub const ACCOUNTS: u64 = 32;

// Why an account's equity changed.
#[derive(Clone, Copy, Debug, PartialEq, Eq)]
pub enum Kind {
    PayIn,
    PayOut,
    TradeFee,
    Settlement,
}

// One movement of money of one account, with what the account then had, in units.
#[derive(Clone, Copy, Debug, PartialEq, Eq)]
pub struct Entry {
    // the slot of this account's entry before it, or 0
    pub next: u32,
    pub day: u16,
    pub kind: Kind,
    pub account: u8,
    // of equity
    pub change: i64,
    pub available: i64,
    pub margin: u64,
}

// An entry with the slot that holds it, as one link of its account's chain.
#[derive(Clone, Copy, Debug, PartialEq, Eq)]
pub struct Link {
    pub slot: u32,
    pub entry: Entry,
}

// A byte that stands for no kind.
#[derive(Clone, Copy, Debug, PartialEq, Eq)]
pub struct UnknownKind(pub u8);

impl Kind {
    // Beside the text of a `Kind`, which is this name: lending it cannot fail.
    pub fn name(self) -> &'static str
        ensures { result.now ≡ kind_name self }
    {
        match self {
            Kind::PayIn => "pay-in",
            Kind::PayOut => "pay-out",
            Kind::TradeFee => "trade-fee",
            Kind::Settlement => "settlement",
        }
    }
}

impl From<Kind> for u8 {
    ghost from_gives = { λ kind byte. byte ≡ kind_byte kind };

    fn from(kind: Kind) -> u8 {
        match kind {
            Kind::PayIn => 1,
            Kind::PayOut => 2,
            Kind::TradeFee => 3,
            Kind::Settlement => 4,
        }
    }
}

impl TryFrom<u8> for Kind {
    type Error = UnknownKind;

    ghost try_from_gives = { λ byte kind. kind ≡ kind_from byte };

    fn try_from(byte: u8) -> Result<Kind, UnknownKind> {
        match byte {
            1 => Ok(Kind::PayIn),
            2 => Ok(Kind::PayOut),
            3 => Ok(Kind::TradeFee),
            4 => Ok(Kind::Settlement),
            _ => Err(UnknownKind(byte)),
        }
    }
}

impl fmt::Display for Kind {
    ghost output = { λ kind. Some (kind_name kind) };

    fn fmt<W: fmt::Write>(&self, f: &mut fmt::Formatter<W>) -> fmt::Result {
        f.write_str(self.name())
    }
}

impl fmt::Display for UnknownKind {
    ghost output = { λ unknown. Some (codes "no kind of entry has the byte " ++ decimal unknown.0) };

    fn fmt<W: fmt::Write>(&self, f: &mut fmt::Formatter<W>) -> fmt::Result {
        let byte = self.0;
        write!(f, "no kind of entry has the byte {byte}")
    }
}

impl Error for UnknownKind {}
