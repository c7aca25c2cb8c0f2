// An account's chain, link by link from its newest entry on, whatever the bytes are (docs/ARCHIVE.md, "Chains").
ghost use Rattle.std.specs.Prelude.{◌≡◌, ◌+◌, ◌*◌, ◌≤◌, length, ◌==◌};
ghost use Rattle.std.specs.Iterator.{at_most};
ghost use Rattle.archive.specs.Layout.{slot_at};
ghost use Rattle.archive.specs.Chain.{last, entry_on};

use crate::entry::{Entry, Link};
use crate::layout::{ACCOUNT_AT, Slot};
use crate::read::{admit, used_slots};
use crate::write::SLOT_BYTES;
use refusal::Refusal;

// The links of the account's chain from a slot on.
#[derive(Drop)]
pub(crate) struct Links<'a> {
    archive: &'a [u8],
    account: u64,
    // the next link's, or 0 at the chain's end, as the format writes for none; before the chain, the last one used
    slot: u32,
    ghost within: { 32 * slot + 32 ≤ length archive.now },
}

impl<'a> Links<'a> {
    ghost use Rattle.archive.specs.Walks.{Opened};

    // The account's whole chain, or why nothing can be read of it.
    pub(crate) fn open(archive: &'a [u8], account: u64) -> Result<Links<'a>, Refusal>
        ensures { Opened archive.now account result }
    {
        admit(archive, account)?;
        let used = Links {
            archive,
            account,
            slot: used_slots(archive),
        };
        Ok(Links {
            archive,
            account,
            slot: used.newest(),
        })
    }

    // The highest slot up to this one that names the account, or 0.
    #[tactic(auto, using(crate::proofs::Chains::last_named, crate::proofs::Chains::last_below, crate::proofs::Chains::last_none))]
    fn newest(&self) -> u32
        ensures { result ≡ last (slot_at self.now.archive.now) self.now.account self.now.slot }
    {
        // counted up and in one width: a reversed range, or a slot that is widened for each byte, took half as long again
        let top = self.slot as usize;
        for passed in 0..top {
            let slot = top - passed;
            if self.names(slot) {
                return slot as u32;
            }
        }
        0
    }

    // Whether a slot up to here names the account.
    #[tactic(auto, unfolding(crate::specs::Layout::slot_at))]
    fn names(&self, slot: usize) -> bool
        requires { slot ≤ self.now.slot }
        ensures { result ≡ ((slot_at self.now.archive.now slot).account == self.now.account) }
    {
        u64::from(self.archive[SLOT_BYTES * slot + ACCOUNT_AT]) == self.account
    }

    // The entry of the slot here, if it may stand on the account's chain.
    fn entry(&self) -> Option<Entry>
        ensures { result ≡ entry_on (slot_at self.now.archive.now self.now.slot) self.now.account self.now.slot }
    {
        let held = Slot::read(self.archive, self.slot);
        if held.next < self.slot && u64::from(held.account) == self.account {
            held.try_into().ok()
        } else {
            None
        }
    }
}

impl Iterator for Links<'_> {
    ghost use Rattle.archive.specs.Walks.{Steps};

    type Item = Result<Link, Refusal>;

    ghost next_gives = { Steps };

    ghost remaining = { λ links. at_most links.slot };

    #[tactic(auto, using(crate::proofs::Chains::chain_on, crate::proofs::Chains::chain_broken, crate::proofs::Chains::chain_end, crate::proofs::Chains::on_chain))]
    fn next(&mut self) -> Option<Result<Link, Refusal>> {
        let slot = self.slot;
        if slot == 0 {
            return None;
        }
        let Some(entry) = self.entry() else {
            self.slot = 0;
            return Some(Err(Refusal::BrokenChain));
        };
        self.slot = entry.next;
        Some(Ok(Link { slot, entry }))
    }
}
