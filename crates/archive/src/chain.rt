// An account's whole chain in one pass, for programs that print or sum it.
ghost use Rattle.std.specs.Prelude.{◌≡◌, ◌-◌, ◌^◌, pos, ◌+ℤ◌, neg_ℤ, ◌≤ℤ◌, Some};
ghost use Rattle.archive.specs.Chain.{chain_of};
ghost use Rattle.archive.specs.Gathered.{Gathered, Holds, changes, Summed, error_text};
ghost use Rattle.archive.specs.declared.chain.ChainError.TheVariants.{Refused, NoMemory};

use crate::entry::Link;
use crate::links::Links;
use refusal::Refusal;
use std::alloc::{AllocFailed, Global};
use std::error::Error;
use std::fmt;

// Why a chain is not in memory.
#[derive(Clone, Copy, Debug, PartialEq, Eq)]
pub enum ChainError {
    Refused(Refusal),
    NoMemory,
}

impl From<Refusal> for ChainError {
    ghost from_gives = { λ refusal error. error ≡ Refused refusal };

    fn from(refusal: Refusal) -> Self {
        Self::Refused(refusal)
    }
}

impl<T: Drop> From<AllocFailed<T>> for ChainError {
    ghost from_gives = { λ _ error. error ≡ NoMemory };

    fn from(_failed: AllocFailed<T>) -> Self {
        Self::NoMemory
    }
}

impl fmt::Display for ChainError {
    ghost output = { λ error. Some (error_text error) };

    fn fmt<W: fmt::Write>(&self, f: &mut fmt::Formatter<W>) -> fmt::Result {
        match self {
            ChainError::Refused(refusal) => write!(f, "{refusal}"),
            ChainError::NoMemory => write!(f, "out of memory"),
        }
    }
}

impl Error for ChainError {}

// The account's chain, newest first.
#[tactic(auto, using(crate::proofs::Gathering::onto_more, crate::proofs::Gathering::onto_end, crate::proofs::Gathering::onto_refused))]
pub fn chain(heap: Global, archive: &[u8], account: u64) -> Result<Vec<Link>, ChainError>
    ensures { Gathered (chain_of archive.now account) (Holds archive.now account) result }
{
    let mut links = Vec::new(heap);
    for link in Links::open(archive, account)? {
        links.push(link?)?;
    }
    Ok(links)
}

// Sums of fewer than 2^64 changes stay inside 128 bits.
fn plus(sum: i128, change: i64) -> i128
    requires { (neg_ℤ (pos (2 ^ 127 - 2 ^ 64)) ≤ℤ sum) × (sum ≤ℤ pos (2 ^ 127 - 2 ^ 64)) }
    ensures { result ≡ sum +ℤ change }
{
    sum + change as i128
}

// The sum of the changes, which is the account's equity in units; none where it leaves 64 bits, as in no archive that
// a book has written.
pub fn sum_of_changes(links: &[Link]) -> Option<i64>
    ensures { Summed (changes links.now) result }
{
    let mut sum: i128 = 0;
    // no `sum()` or `fold` here: that the sum stays inside 128 bits is known only of each step
    for link in links {
        sum = plus(sum, link.entry.change);
    }
    i64::try_from(sum).ok()
}
