// The text of an account's chain (docs/RULES.md, "A chain").
ghost use Rattle.std.specs.Prelude.{◌≡◌, [], ◌∷◌, ◌++◌, length, IfOk, Some, string_bytes, OnOk};
ghost use Rattle.archive.specs.Chain.{chain_of};
ghost use Rattle.chain.specs.Listing.{line_of, lines_of, total_of, Reported, fault_of, meaning_of, fault_text};
ghost use Rattle.chain.specs.declared.listing.Fault.TheVariants.{NoMemory};

use archive::chain::{ChainError, chain, sum_of_changes};
use archive::entry::Link;
use lines::amount::{Amount, Magnitude};
use refusal::Refusal;
use std::alloc::{AllocError, Global};
use std::error::Error;
use std::fmt;

// Why there is no listing.
#[derive(Clone, Copy, Debug, PartialEq, Eq)]
pub enum Fault {
    Refused(Refusal),
    NoSum,
    NoMemory,
}

impl From<ChainError> for Fault {
    ghost from_gives = { λ error fault. fault ≡ fault_of error };

    fn from(error: ChainError) -> Self {
        match error {
            ChainError::Refused(refusal) => Fault::Refused(refusal),
            ChainError::NoMemory => Fault::NoMemory,
        }
    }
}

impl From<AllocError> for Fault {
    ghost from_gives = { λ _ fault. fault ≡ NoMemory };

    fn from(_error: AllocError) -> Self {
        Self::NoMemory
    }
}

// What a refusal of the reader means, for a person. The reader has no others.
fn meaning(refusal: Refusal) -> &'static str
    ensures { result.now ≡ meaning_of refusal }
{
    match refusal {
        Refusal::OutOfRange => "the account is not 1 to 32",
        Refusal::NotAnArchive => "the file is no archive of a book",
        Refusal::BrokenChain => "the chain of the account is broken",
        _ => "see the table of refusals",
    }
}

impl fmt::Display for Fault {
    ghost output = { λ fault. Some (fault_text fault) };

    fn fmt<W: fmt::Write>(&self, f: &mut fmt::Formatter<W>) -> fmt::Result {
        match self {
            Fault::Refused(refusal) => {
                let why = meaning(*refusal);
                write!(f, "{refusal} {why}")
            }
            Fault::NoSum => f.write_str(
                "the changes do not sum to an amount of 64 bits: no book wrote this archive",
            ),
            Fault::NoMemory => f.write_str("out of memory"),
        }
    }
}

impl Error for Fault {}

// One entry's line.
#[derive(Clone, Copy, Debug, PartialEq, Eq)]
pub struct Line(pub Link);

impl fmt::Display for Line {
    ghost output = { λ l. Some (line_of l.0) };

    fn fmt<W: fmt::Write>(&self, f: &mut fmt::Formatter<W>) -> fmt::Result {
        let slot = self.0.slot;
        let day = self.0.entry.day;
        let kind = self.0.entry.kind;
        let change = Amount(self.0.entry.change);
        let available = Amount(self.0.entry.available);
        let margin = Magnitude(self.0.entry.margin);
        write!(f, "entry {slot} {day} {kind} {change} {available} {margin}")
    }
}

fn entry_line(text: &mut String, link: &Link) -> Result<(), AllocError>
    ensures { OnOk result (string_bytes text.new ≡ string_bytes text.old ++ (line_of link.now ++ (10 ∷ []))) }
{
    let line = Line(*link);
    writeln!(text, "{line}")
}

fn entries(text: &mut String, links: &[Link]) -> Result<(), AllocError>
    ensures { OnOk result (string_bytes text.new ≡ string_bytes text.old ++ lines_of links.now) }
{
    for link in links {
        entry_line(text, link)?;
    }
    Ok(())
}

fn total_line(text: &mut String, count: usize, sum: i64) -> Result<(), AllocError>
    ensures { OnOk result (string_bytes text.new ≡ string_bytes text.old ++ total_of count sum) }
{
    let equity = Amount(sum);
    writeln!(text, "entries {count} equity {equity}")
}

fn listed(heap: Global, links: &[Link], sum: i64) -> Result<String, AllocError>
    ensures { IfOk result (λ t. string_bytes t ≡ lines_of links.now ++ total_of (length links.now) sum) }
{
    let mut text = String::new(heap);
    entries(&mut text, links)?;
    total_line(&mut text, links.len(), sum)?;
    Ok(text)
}

// The whole text for one account of an archive, whatever its bytes are.
pub fn report(heap: Global, archive: &[u8], account: u64) -> Result<String, Fault>
    ensures { Reported (chain_of archive.now account) result }
{
    let links = chain(heap, archive, account)?;
    let sum = sum_of_changes(links.as_slice()).ok_or(Fault::NoSum)?;
    Ok(listed(heap, links.as_slice(), sum)?)
}
