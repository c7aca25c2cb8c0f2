// The 32 bytes of a slot, written and read back (docs/ARCHIVE.md, "Entries").
ghost use Rattle.std.specs.Prelude.{◌≡◌, ℕ, ◌+◌, ◌*◌, ◌≤◌, length, slice_range};
ghost use Rattle.archive.specs.Layout.{encoded, header, slot_at, slot_of, entry_from};

use crate::entry::{Entry, UnknownKind};
use crate::write::SLOT_BYTES;

// Where in a slot its account's byte stands.
pub(crate) const ACCOUNT_AT: usize = 7;

// The numbers of a slot as they stand there. Beside `Entry`, since here the byte of the kind may be any.
#[derive(Clone, Copy, Debug, PartialEq, Eq)]
pub(crate) struct Slot {
    pub next: u32,
    pub day: u16,
    pub kind: u8,
    pub account: u8,
    pub change: i64,
    pub available: i64,
    pub margin: u64,
}

impl From<Entry> for Slot {
    ghost from_gives = { λ entry slot. slot ≡ slot_of entry };

    fn from(entry: Entry) -> Slot {
        Slot {
            next: entry.next,
            day: entry.day,
            kind: entry.kind.into(),
            account: entry.account,
            change: entry.change,
            available: entry.available,
            margin: entry.margin,
        }
    }
}

impl TryFrom<Slot> for Entry {
    type Error = UnknownKind;

    ghost try_from_gives = { λ slot entry. entry ≡ entry_from slot };

    fn try_from(slot: Slot) -> Result<Entry, UnknownKind> {
        Ok(Entry {
            next: slot.next,
            day: slot.day,
            kind: slot.kind.try_into()?,
            account: slot.account,
            change: slot.change,
            available: slot.available,
            margin: slot.margin,
        })
    }
}

impl Slot {
    #[tactic(auto, unfolding(crate::specs::Layout::encoded))]
    pub(crate) fn bytes(self) -> [u8; SLOT_BYTES]
        ensures { result ≡ encoded self }
    {
        let mut out = [0; SLOT_BYTES];
        out[0..4].copy_from_slice(&self.next.to_be_bytes());
        out[4..6].copy_from_slice(&self.day.to_be_bytes());
        out[6] = self.kind;
        out[ACCOUNT_AT] = self.account;
        out[8..16].copy_from_slice(&self.change.to_be_bytes());
        out[16..24].copy_from_slice(&self.available.to_be_bytes());
        out[24..32].copy_from_slice(&self.margin.to_be_bytes());
        out
    }

    // What this slot of an archive says.
    #[tactic(auto, using(crate::proofs::Layouts::num2_cut, crate::proofs::Layouts::num4_cut, crate::proofs::Layouts::num8_cut), unfolding(crate::specs::Layout::slot_at))]
    pub(crate) fn read(archive: &[u8], slot: u32) -> Slot
        requires { 32 * slot + 32 ≤ length archive.now }
        ensures { result ≡ slot_at archive.now slot }
    {
        let at = SLOT_BYTES * slot as usize;
        Slot {
            next: u32::from_be_bytes(bytes_at(archive, at)),
            day: u16::from_be_bytes(bytes_at(archive, at + 4)),
            kind: archive[at + 6],
            account: archive[at + ACCOUNT_AT],
            change: i64::from_be_bytes(bytes_at(archive, at + 8)),
            available: i64::from_be_bytes(bytes_at(archive, at + 16)),
            margin: u64::from_be_bytes(bytes_at(archive, at + 24)),
        }
    }
}

// Slot 0 of a book that has used so many entries.
#[tactic(auto, unfolding(crate::specs::Layout::header))]
pub(crate) fn header_bytes(used: u32, book: u16) -> [u8; SLOT_BYTES]
    ensures { result ≡ header used book }
{
    let mut out = [0; SLOT_BYTES];
    out[0..4].copy_from_slice(&used.to_be_bytes());
    out[4..6].copy_from_slice(&book.to_be_bytes());
    out
}

// The bytes of a number, as many as its type has.
pub(crate) fn bytes_at<const N: usize>(bytes: &[u8], at: usize) -> [u8; N]
    requires { at + N ≤ length bytes.now }
    ensures { result ≡ slice_range bytes.now at (at + N) }
{
    let mut out = [0; N];
    out.copy_from_slice(&bytes[at..at + N]);
    out
}
