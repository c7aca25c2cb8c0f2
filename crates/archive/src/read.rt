// The reader: an account's chain from the bytes alone, whatever they are (docs/ARCHIVE.md, "Chains").
ghost use Rattle.std.specs.Prelude.{◌≡◌, ◌≤◌, length, ◌==◌};
ghost use Rattle.std.specs.List.{list_all};
ghost use Rattle.refusal.specs.Reasons.{answered};
ghost use Rattle.archive.specs.Layout.{num2, used_in};
ghost use Rattle.archive.specs.Chain.{headed, reader_refusal, reading};
ghost use Rattle.archive.specs.Walks.{passed};

use crate::entry::{ACCOUNTS, Entry};
use crate::layout::bytes_at;
use crate::links::Links;
use crate::write::{SLOT_BYTES, is_allowed};
use refusal::Refusal;

fn all_zero(bytes: &[u8]) -> bool
    ensures { result ≡ list_all (λ b. b == 0) bytes.now }
{
    bytes.iter().all(|&byte| byte == 0)
}

// How many entries the archive says that it holds.
#[tactic(auto, using(crate::proofs::Layouts::num4_cut))]
pub(crate) fn used_slots(archive: &[u8]) -> u32
    requires { 4 ≤ length archive.now }
    ensures { result ≡ used_in archive.now }
{
    u32::from_be_bytes(bytes_at(archive, 0))
}

// The book's number.
#[tactic(auto, using(crate::proofs::Layouts::num2_cut))]
fn book_number(archive: &[u8]) -> u16
    requires { 6 ≤ length archive.now }
    ensures { result ≡ num2 archive.now 4 }
{
    u16::from_be_bytes(bytes_at(archive, 4))
}

#[tactic(auto, using(crate::proofs::Layouts::all_zeros))]
fn is_headed(archive: &[u8]) -> bool
    ensures { result ≡ headed archive.now }
{
    is_allowed(archive.len())
        && book_number(archive) > 0
        && all_zero(&archive[6..32])
        && (used_slots(archive) as usize) < archive.len() / SLOT_BYTES
}

// Why nothing can be read for this account, before its chain is looked at.
pub(crate) fn admit(archive: &[u8], account: u64) -> Result<(), Refusal>
    ensures { result ≡ answered (reader_refusal archive.now account) }
{
    if !(1..=ACCOUNTS).contains(&account) {
        return Err(Refusal::OutOfRange);
    }
    if !is_headed(archive) {
        return Err(Refusal::NotAnArchive);
    }
    Ok(())
}

// A search for an entry on a chain: how far on it is, and the entry once passed.
#[derive(Clone, Copy, Debug, PartialEq, Eq)]
struct Search {
    left: u64,
    found: Option<Entry>,
}

impl Search {
    fn past(self, entry: Entry) -> Search
        ensures { result ≡ passed self entry }
    {
        let found = if self.left == 1 {
            Some(entry)
        } else {
            self.found
        };
        Search {
            left: self.left.saturating_sub(1),
            found,
        }
    }
}

// The k-th entry of the account's chain, counted from 1 at its highest used slot, or none. The whole chain is
// looked at, so that a break beyond the k-th entry is found too.
#[tactic(auto, using(crate::proofs::Walking::onward_start, crate::proofs::Walking::onward_end, crate::proofs::Walking::at_link, crate::proofs::Walking::unfound))]
pub fn read(archive: &[u8], account: u64, k: u64) -> Result<Option<Entry>, Refusal>
    ensures { result ≡ reading archive.now account k }
{
    let mut search = Search {
        left: k,
        found: None,
    };
    for link in Links::open(archive, account)? {
        search = search.past(link?.entry);
    }
    Ok(search.found)
}
