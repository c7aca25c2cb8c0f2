// twodays: the two days of docs/RULES.md, "Worked example", by direct calls of a book, with some calls that are refused
// on the way; the figures after each day, in units, the entries used, and the slots of account 1's chain.
#![tactic(auto)]

ghost use Rattle.std.specs.Prelude.{◌≡◌};

mod day;

use archive::chain::{ChainError, chain};
use book::book::Book;
use day::{Answer, OpenDay};
use law::funds;
use ledger::state::{Deal, Effect, Listing};
use refusal::{Refusal, said};

const SLOTS: u64 = 2_048;

const CONTRACT: Listing = Listing {
    place: 1,
    number: 101,
    base: 1_000,
    ratio: 1_000,
    fee: 20,
    delivery: 30,
    last: 2,
};

const DEAL: Deal = Deal {
    place: 1,
    price: 1_010,
    quantity: 10,
    buyer: 1,
    bought: Effect::Opens,
    seller: 2,
    sold: Effect::Opens,
};

// Another book's permit, brought to this day and laid down at home again.
fn strangers_permit(day: &mut OpenDay, archive: &mut [u8], other: Book) -> Answer
    ensures { day.new.permit ≡ day.old.permit }
{
    let stranger = OpenDay::open(other).map_err(|(_, refusal)| refusal)?;
    let (stranger, answer) = day.pay_in_under(stranger, archive, 1, 100);
    stranger.put_away();
    answer
}

// What each call of the first day answered: a pay-in with another book's permit, two pay-ins, a pay-out of an empty
// account, the trade, and end with settle.
fn first_day(
    book: Book,
    archive: &mut [u8],
    other: Book,
) -> Result<(Book, [Answer; 6]), (Book, Refusal)> {
    let mut day = OpenDay::open(book)?;
    let strange = strangers_permit(&mut day, archive, other);
    let (day, paid) = day.pay_in(archive, 1, 10_000_000);
    let (day, also) = day.pay_in(archive, 2, 10_000_000);
    let (day, out) = day.pay_out(archive, 3, 1);
    let (day, dealt) = day.trade(archive, DEAL);
    let (book, closed) = day.close(archive, 68_100);
    Ok((book, [strange, paid, also, out, dealt, closed]))
}

// And of the second: a trade at an empty place, the delivery price, and end with settle.
fn second_day(book: Book, archive: &mut [u8]) -> Result<(Book, [Answer; 3]), (Book, Refusal)> {
    let day = OpenDay::open(book)?;
    let (day, dealt) = day.trade(archive, Deal { place: 2, ..DEAL });
    let (day, priced) = day.deliver(1, 1_000);
    let (book, closed) = day.close(archive, 68_200);
    Ok((book, [dealt, priced, closed]))
}

fn show_account(rt: &HostRuntime, book: &Book, account: u64) -> anyhow::Result<()> {
    match funds(book, account) {
        Ok(held) => println!(rt;
            "account {account} available {} margin {} call {}",
            held.available, held.margin, held.call
        )?,
        Err(refusal) => println!(rt; "account {account} {refusal}")?,
    }
    Ok(())
}

// The slots of an account's chain, newest first.
fn show_chain(rt: &HostRuntime, archive: &[u8], account: u64) -> anyhow::Result<()> {
    match chain(rt.alloc(), archive, account) {
        Ok(links) => {
            for link in &links {
                println!(rt; "entry {}", link.slot)?;
            }
        }
        Err(ChainError::Refused(refusal)) => println!(rt; "chain {refusal}")?,
        // shorter than the error's own text
        Err(ChainError::NoMemory) => println!(rt; "no memory")?,
    }
    Ok(())
}

fn show(rt: &HostRuntime, book: &Book, archive: &[u8]) -> anyhow::Result<()> {
    let used = (SLOTS - 1).saturating_sub(book.free());
    println!(rt; "day {} fees {} entries {used}", book.day(), book.fees())?;
    show_account(rt, book, 1)?;
    show_account(rt, book, 2)?;
    show_chain(rt, archive, 1)
}

fn show_answers(rt: &HostRuntime, name: &str, answers: &[Answer]) -> anyhow::Result<()> {
    for answer in answers {
        println!(rt; "{name} answered {}", said(*answer))?;
    }
    Ok(())
}

fn main(rt: HostRuntime) -> anyhow::Result<()> {
    let mut archive = vec![in rt.alloc(); 0u8; 65_536]?;
    let mut spare = vec![in rt.alloc(); 0u8; 65_536]?;
    let mut book = Book::new();
    let mut other = Book::new();
    let founded = [
        book.list(CONTRACT),
        book.found(archive.as_mut_slice(), 7, 68_000),
        book.found(archive.as_mut_slice(), 8, 68_000),
        book.list(CONTRACT),
        other.found(spare.as_mut_slice(), 8, 68_000),
    ];
    show_answers(&rt, "before", &founded)?;
    // Where no day is opened, its refusal is the answer of every call.
    let first = first_day(book, archive.as_mut_slice(), other);
    let (book, answers) = first.unwrap_or_else(|(book, refusal)| (book, [Err(refusal); 6]));
    show_answers(&rt, "first day", &answers)?;
    show(&rt, &book, archive.as_slice())?;
    let second = second_day(book, archive.as_mut_slice());
    let (book, answers) = second.unwrap_or_else(|(book, refusal)| (book, [Err(refusal); 3]));
    show_answers(&rt, "second day", &answers)?;
    show(&rt, &book, archive.as_slice())
}
