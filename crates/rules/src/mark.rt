// What one TEU of a contract is worth after a day (docs/RULES.md, "Settling").
ghost use Rattle.std.specs.Prelude.{◌≡◌, ◌≤◌};
ghost use Rattle.rules.specs.Mark.{marked, max_mark, Small};
ghost use Rattle.rules.specs.Units.{max_price, max_rate};
ghost use Rattle.rules.specs.Worked.{WorkedFigures};

use crate::figures::Figures;
use crate::price::PriceRule;

// The settlement price at the settlement rate, in units per TEU. Here the definitions are held to the worked figures of
// docs/RULES.md.
pub fn mark<R: PriceRule>(rule: &R, figures: &Figures, rate: u64) -> u128
    ensures value { result ≡ marked (R.meaning rule.now figures.now) rate }
    ensures small { Small figures.now rate result }
    ensures worked { WorkedFigures }
{
    worth(rule.price(figures), rate)
}

// In 128 bits, which have room for every price and rate.
#[tactic(auto, using(crate::proofs::MarkLaws::marked_small))]
fn worth(price: u64, rate: u64) -> u128
    ensures value { result ≡ marked price rate }
    ensures small { price ≤ max_price → rate ≤ max_rate → result ≤ max_mark }
{
    price as u128 * rate as u128
}
