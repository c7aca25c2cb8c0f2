// A sound archive, spoiled in every way that the reader refuses, and what the reader answers each time.
#![tactic(auto)]

use archive::entry::{Entry, Kind};
use archive::read::read;
use archive::write::{append, begin};
use refusal::said;
use std::alloc::Global;

// One byte put in another's place.
#[derive(Clone, Copy, Debug, PartialEq, Eq)]
struct Spoiled {
    name: &'static str,
    at: usize,
    byte: u8,
}

const SPOILED: [Spoiled; 12] = [
    Spoiled {
        name: "nothing spoiled",
        at: 2047,
        byte: 0,
    },
    Spoiled {
        name: "an unused slot",
        at: 1000,
        byte: 0,
    },
    Spoiled {
        name: "book number zero",
        at: 5,
        byte: 0,
    },
    Spoiled {
        name: "slot 0 not zero at byte 6",
        at: 6,
        byte: 1,
    },
    Spoiled {
        name: "slot 0 not zero at byte 31",
        at: 31,
        byte: 1,
    },
    Spoiled {
        name: "all slots but slot 0 used",
        at: 3,
        byte: 63,
    },
    Spoiled {
        name: "as many used as slots",
        at: 3,
        byte: 64,
    },
    Spoiled {
        name: "next is its own slot",
        at: 163,
        byte: 5,
    },
    Spoiled {
        name: "next is a higher slot",
        at: 162,
        byte: 1,
    },
    Spoiled {
        name: "an account foreign to the chain",
        at: 103,
        byte: 2,
    },
    Spoiled {
        name: "kind 0 on the chain",
        at: 102,
        byte: 0,
    },
    Spoiled {
        name: "kind 5 beyond the first entry",
        at: 38,
        byte: 5,
    },
];

fn entry(next: u32, kind: Kind, account: u8, change: i64) -> Entry {
    Entry {
        next,
        day: 1,
        kind,
        account,
        change,
        available: change,
        margin: 0,
    }
}

// An archive of 64 slots in memory that was not clean, with five entries of two accounts.
fn sample(heap: Global) -> anyhow::Result<Vec<u8>> {
    let mut archive = vec![in heap; 0xAA; 2048]?;
    let slots = archive.as_mut_slice();
    begin(slots, 7)?;
    append(slots, 0, entry(0, Kind::PayIn, 1, 1_000_000))?;
    append(slots, 1, entry(0, Kind::PayIn, 2, 1_000_000))?;
    append(slots, 2, entry(1, Kind::TradeFee, 1, -200))?;
    append(slots, 3, entry(2, Kind::TradeFee, 2, -200))?;
    append(slots, 4, entry(3, Kind::Settlement, 1, 50))?;
    Ok(archive)
}

fn say(rt: &HostRuntime, name: &str, archive: &[u8], account: u64, k: u64) -> anyhow::Result<()> {
    match read(archive, account, k) {
        Ok(Some(found)) => println!(rt; "{name}: change {}", found.change)?,
        Ok(None) => println!(rt; "{name}: none")?,
        Err(refusal) => println!(rt; "{name}: {refusal}")?,
    }
    Ok(())
}

fn bytes(rt: &HostRuntime, sound: &Vec<u8>) -> anyhow::Result<()> {
    for spoiled in &SPOILED {
        let mut archive = sound.clone()?;
        if let Some(byte) = archive.get_mut(spoiled.at) {
            *byte = spoiled.byte;
        }
        say(rt, spoiled.name, archive.as_slice(), 1, 1)?;
    }
    Ok(())
}

fn lengths(rt: &HostRuntime, sound: &Vec<u8>) -> anyhow::Result<()> {
    for length in [0, 31, 2016, 2047, 2080, 8_388_608, 8_388_609, 8_388_640] {
        let mut archive = sound.clone()?;
        archive.resize(length, 0)?;
        println!(rt; "{length} bytes:")?;
        say(rt, "  first entry", archive.as_slice(), 1, 1)?;
    }
    Ok(())
}

fn questions(rt: &HostRuntime, sound: &Vec<u8>) -> anyhow::Result<()> {
    for (account, k) in [
        (1, 0),
        (1, 2),
        (1, 3),
        (1, 4),
        (1, u64::MAX),
        (2, 1),
        (3, 1),
        (32, 1),
        (0, 1),
        (33, 1),
        (u64::MAX, 1),
    ] {
        println!(rt; "account {account}, entry {k}:")?;
        say(rt, "  answer", sound.as_slice(), account, k)?;
    }
    say(rt, "account 0 of no archive", b"", 0, 1)
}

fn writing(rt: &HostRuntime, sound: &mut Vec<u8>) -> anyhow::Result<()> {
    let short = said(begin(&mut [0; 2016], 7));
    let nameless = said(begin(sound.as_mut_slice(), 0));
    let last = said(append(sound.as_mut_slice(), 62, entry(5, Kind::PayOut, 1, -1)));
    let full = said(append(sound.as_mut_slice(), 63, entry(5, Kind::PayOut, 1, -1)));
    let most = said(append(
        sound.as_mut_slice(),
        u32::MAX,
        entry(5, Kind::PayOut, 1, -1),
    ));
    println!(rt; "writing: {short} {nameless} {last} {full} {most}")?;
    Ok(())
}

fn main(rt: HostRuntime) -> anyhow::Result<()> {
    let mut sound = sample(rt.alloc())?;
    bytes(&rt, &sound)?;
    lengths(&rt, &sound)?;
    questions(&rt, &sound)?;
    writing(&rt, &mut sound)
}
