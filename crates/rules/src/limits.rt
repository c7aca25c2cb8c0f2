// The prices that a contract may trade at on a day (docs/RULES.md, "Limits").
ghost use Rattle.std.specs.Prelude.{◌≡◌, ◌≤◌};
ghost use Rattle.rules.specs.Limits.{limits_about, limits_on, wide_day};

use crate::units::{MAX_PRICE_DOLLARS, NARROW_PERCENT, WIDE_PERCENT};

// The lowest and the highest price, in dollars per TEU.
#[derive(Clone, Copy, Debug, PartialEq, Eq)]
pub struct Limits {
    pub lower: u64,
    pub upper: u64,
}

// A contract's listing day and its last.
#[derive(Clone, Copy, Debug, PartialEq, Eq)]
pub struct Term {
    pub listed: u64,
    pub last: u64,
}

impl Term {
    // The first day after the listing day and the last have wide limits, about the base price.
    fn is_wide(&self, day: u64) -> bool
        ensures { result ≡ wide_day self.now day }
    {
        day == self.last || day.checked_sub(self.listed) == Some(1)
    }
}

impl Limits {
    // The limits that a contract has on a day, from its base price and its previous price.
    pub fn on(day: u64, term: &Term, base: u64, previous: u64) -> Limits
        ensures { result ≡ limits_on day term.now base previous }
    {
        if term.is_wide(day) {
            Limits::about(WIDE_PERCENT, base)
        } else {
            Limits::about(NARROW_PERCENT, previous)
        }
    }

    // In 128 bits, since a price may be any number.
    fn about(percent: u64, price: u64) -> Limits
        requires { percent ≤ 100 }
        ensures { result ≡ limits_about percent price }
    {
        let part = (price as u128 * percent as u128 / 100) as u64;
        Limits {
            lower: price - part,
            upper: price.saturating_add(part).min(MAX_PRICE_DOLLARS),
        }
    }
}
