// A book: the ledger of its money and positions, the desk beside it, and the invariant that an entry always finds its
// slot, so that no book can exist without it.
ghost use Rattle.book.specs.Held.{SlotsIn, RoomIn, RestIn};

use crate::desk::Desk;
use ledger::ledger::Ledger;

pub mod cash;
pub mod closing;
pub mod closing_permit;
pub mod day_permit;
pub mod founding;
mod gates;
mod laying;
pub mod questions;
pub mod resting;
pub mod trading;
mod writing;

#[derive(Drop)]
pub struct Book {
    desk: Desk,
    ledger: Ledger,
    ghost slots: { SlotsIn desk },
    ghost room: { RoomIn desk ledger.state },
    ghost rest: { RestIn desk ledger.state },
}
