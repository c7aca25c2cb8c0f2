// Writing: slot 0 of a new book, and one entry after another (docs/ARCHIVE.md, "Writing"). Nothing here reads what
// the archive held, and a refusal leaves every byte as it was.
ghost use Rattle.std.specs.Prelude.{◌≡◌, ℕ, ◌+◌, ◌≤◌, length, Ok};
ghost use Rattle.refusal.specs.Reasons.{answered};
ghost use Rattle.archive.specs.Layout.{allowed, patched};
ghost use Rattle.archive.specs.Written.{begin_refusal, begun, append_refusal, appended, Empty, Continues, Grown, Stored};

use crate::entry::Entry;
use crate::layout::{Slot, header_bytes};
use refusal::Refusal;

pub const SLOT_BYTES: usize = 32;

pub const MIN_SLOTS: usize = 64;

pub const MAX_SLOTS: usize = 262_144;

// Whether an archive may have so many bytes.
pub fn is_allowed(bytes: usize) -> bool
    ensures { result ≡ allowed bytes }
{
    bytes % SLOT_BYTES == 0 && (MIN_SLOTS..=MAX_SLOTS).contains(&(bytes / SLOT_BYTES))
}

#[tactic(auto, using(std::proofs::lemmas::Slice::overwrites))]
fn put(archive: &mut [u8], at: usize, bytes: &[u8])
    requires { at + length bytes.now ≤ length archive.old }
    ensures { archive.new ≡ patched archive.old at (length bytes.now) bytes.now }
{
    archive[at..at + bytes.len()].copy_from_slice(bytes);
}

// Apart from `begin`: in one function, `using(begin_empties)` or `using(begun_empty)` left the clause `empty` open.
fn put_header(archive: &mut [u8], book: u16) -> Result<(), Refusal>
    ensures answer { result ≡ answered (begin_refusal (length archive.old) book) }
    ensures bytes { archive.new ≡ begun (begin_refusal (length archive.old) book) archive.old book }
{
    if !is_allowed(archive.len()) {
        return Err(Refusal::ArchiveLength);
    }
    if book == 0 {
        return Err(Refusal::OutOfRange);
    }
    put(archive, 0, &header_bytes(0, book));
    Ok(())
}

// Apart from `append`: in one function, `using(append_stores, append_grows)` left the clauses `stored` and `grown` open.
fn put_entry(archive: &mut [u8], used: u32, entry: Entry) -> Result<(), Refusal>
    ensures answer { result ≡ answered (append_refusal (length archive.old) used) }
    ensures bytes { archive.new ≡ appended (append_refusal (length archive.old) used) archive.old used entry }
{
    if !is_allowed(archive.len()) {
        return Err(Refusal::ArchiveLength);
    }
    let slot = used as usize + 1;
    if archive.len() / SLOT_BYTES <= slot {
        return Err(Refusal::NoRoom);
    }
    put(archive, SLOT_BYTES * slot, &Slot::from(entry).bytes());
    put(archive, 0, &(used + 1).to_be_bytes());
    Ok(())
}

// Makes the bytes the archive of a new book, whatever they held: slot 0 is written and nothing else.
pub fn begin(archive: &mut [u8], book: u16) -> Result<(), Refusal>
    ensures answer { result ≡ answered (begin_refusal (length archive.old) book) }
    ensures bytes { archive.new ≡ begun (begin_refusal (length archive.old) book) archive.old book }
    ensures empty { result ≡ Ok tt → Empty archive.new }
{
    put_header(archive, book)
}

// Writes one entry into the slot after the `used` ones, and the new count into slot 0. Where the archive stands so and
// the entry names the newest of its account as its next, it becomes the front of that account's chain.
pub fn append(archive: &mut [u8], used: u32, entry: Entry) -> Result<(), Refusal>
    ensures answer { result ≡ answered (append_refusal (length archive.old) used) }
    ensures bytes { archive.new ≡ appended (append_refusal (length archive.old) used) archive.old used entry }
    ensures stored { result ≡ Ok tt → Stored archive.new used entry }
    ensures grown { result ≡ Ok tt → Continues archive.old used entry → Grown archive.old archive.new used entry }
{
    put_entry(archive, used, entry)
}
