// The rules by which a contract's settlement price follows from its day (docs/RULES.md, "Price rules").
ghost use Rattle.std.specs.Prelude.{◌≡◌, ℕ, ◌<◌};
ghost use Rattle.rules.specs.declared.figures.Figures.{Figures};
ghost use Rattle.rules.specs.Price.{Inside, averaged, middle, freight_price, futures_price};
ghost use Rattle.rules.specs.PriceLaws.{freight_inside, futures_inside};

use crate::figures::Figures;

pub trait PriceRule {
    // The price that the rule means by a day's figures.
    ghost meaning: { Self → Figures → ℕ };

    fn price(&self, figures: &Figures) -> u64
        ensures { result ≡ meaning self.now figures.now };

    ghost inside: { (rule : Self) → Inside (meaning rule) };
}

// The day's average, else the limit at which a quote stands alone, else the previous price.
#[derive(Clone, Copy, Debug, PartialEq, Eq)]
pub struct Freight;

impl PriceRule for Freight {
    ghost meaning = { λ _ figures. freight_price figures };

    ghost inside = { λ rule. freight_inside };

    fn price(&self, figures: &Figures) -> u64 {
        if figures.quantity > 0 {
            return average(figures.value, figures.quantity);
        }
        match (figures.bid, figures.ask) {
            (Some(bid), None) if bid == figures.limits.upper => bid,
            (None, Some(ask)) if ask == figures.limits.lower => ask,
            _ => figures.previous,
        }
    }
}

// As the freight rule, but on an untraded day two quotes draw the previous price between them.
#[derive(Clone, Copy, Debug, PartialEq, Eq)]
pub struct Futures;

impl PriceRule for Futures {
    ghost meaning = { λ _ figures. futures_price figures };

    ghost inside = { λ rule. futures_inside };

    fn price(&self, figures: &Figures) -> u64 {
        match (figures.quantity, figures.bid, figures.ask) {
            (0, Some(bid), Some(ask)) => median(bid, ask, figures.previous),
            _ => Freight.price(figures),
        }
    }
}

// Value ÷ quantity to the nearest dollar, halves up; in 128 bits, since twice the value may pass 64.
fn average(value: u64, quantity: u64) -> u64
    requires { 0 < quantity }
    ensures { result ≡ averaged value quantity }
{
    let value = value as u128;
    let quantity = quantity as u128;
    ((2 * value + quantity) / (2 * quantity)) as u64
}

// The middle one of three prices.
fn median(a: u64, b: u64, c: u64) -> u64
    ensures { result ≡ middle a b c }
{
    c.clamp(a.min(b), a.max(b))
}
