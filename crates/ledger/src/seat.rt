// The seat of an account or a place, by the number that a caller brings (docs/RULES.md, "The book").
ghost use Rattle.std.specs.Prelude.{◌≡◌, ℕ, ◌<◌};
ghost use Rattle.ledger.specs.Seats.{seat_of};

use refusal::Refusal;
use rules::units::{ACCOUNTS, PLACES};
use std::marker::Model;

// One of N seats. Within, they count from 0, so that an index needs no test.
#[derive(Clone, Copy, Debug, PartialEq, Eq)]
pub(crate) struct Seat<const N: usize> {
    index: usize,
}

pub(crate) type AccountSeat = Seat<ACCOUNTS>;

pub(crate) type PlaceSeat = Seat<PLACES>;

impl<const N: usize> Model for Seat<N> {
    ghost Value = { ℕ };

    ghost view = { λ s. s.index };

    ghost invariant = { λ s. s.index < N };

    ghost inverse = { λ n. record { index = n } };
}

// Numbers that callers bring count from 1.
impl<const N: usize> TryFrom<u64> for Seat<N> {
    type Error = Refusal;

    ghost try_from_gives = { λ number seat. seat ≡ seat_of N number };

    fn try_from(number: u64) -> Result<Seat<N>, Refusal> {
        if (1..=N as u64).contains(&number) {
            Ok(Seat {
                index: (number - 1) as usize,
            })
        } else {
            Err(Refusal::OutOfRange)
        }
    }
}

impl<const N: usize> Seat<N> {
    pub(crate) fn index(self) -> usize
        ensures value { result ≡ self.entry }
        ensures within { result < N }
    {
        self.index
    }
}
