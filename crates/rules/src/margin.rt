// The rules by which money is withheld for open contracts (docs/RULES.md, "Margin rules").
ghost use Rattle.std.specs.Prelude.{◌≡◌, ℕ, ◌+◌};
ghost use Rattle.rules.specs.Margin.{rated, both_sides, larger_side, Fair};
ghost use Rattle.rules.specs.MarginLaws.{rated_fair, larger_side_fair};

use crate::units::{FEN_UNITS, MAX_MARGIN_TEU, MAX_MARGIN_VALUE_UNITS, MAX_RATIO, RATIO_PARTS};

// Values are in units per TEU, ratios in ten-thousandths, margins in units.
pub trait MarginRule {
    // The margin of a quantity that is opened: value, quantity, ratio.
    ghost opening: { Self → ℕ → ℕ → ℕ → ℕ };

    // The margin of what an account holds: value, long, short, ratio.
    ghost holding: { Self → ℕ → ℕ → ℕ → ℕ → ℕ };

    fn opening_margin(&self, value: u64, quantity: u64, ratio: u64) -> u64
        ensures { result ≡ opening self.now value quantity ratio };

    fn holding_margin(&self, value: u64, long: u64, short: u64, ratio: u64) -> u64
        ensures { result ≡ holding self.now value long short ratio };

    ghost opens: { (rule : Self) (value quantity ratio : ℕ) → Fair value quantity ratio (opening rule value quantity ratio) };

    ghost holds: { (rule : Self) (value long short ratio : ℕ) → Fair value (long + short) ratio (holding rule value long short ratio) };
}

// Long and short both count.
#[derive(Clone, Copy, Debug, PartialEq, Eq)]
pub struct BothSides;

impl MarginRule for BothSides {
    ghost opening = { λ _ value quantity ratio. rated value quantity ratio };

    ghost holding = { λ _ value long short ratio. both_sides value long short ratio };

    ghost opens = { λ rule. rated_fair };

    ghost holds = { λ rule value long short. rated_fair value (long + short) };

    fn opening_margin(&self, value: u64, quantity: u64, ratio: u64) -> u64 {
        margin(value, quantity, ratio)
    }

    fn holding_margin(&self, value: u64, long: u64, short: u64, ratio: u64) -> u64 {
        margin(value, long.saturating_add(short), ratio)
    }
}

// Only the larger of long and short counts.
#[derive(Clone, Copy, Debug, PartialEq, Eq)]
pub struct LargerSide;

impl MarginRule for LargerSide {
    ghost opening = { λ _ value quantity ratio. rated value quantity ratio };

    ghost holding = { λ _ value long short ratio. larger_side value long short ratio };

    ghost opens = { λ rule. rated_fair };

    ghost holds = { λ rule. larger_side_fair };

    fn opening_margin(&self, value: u64, quantity: u64, ratio: u64) -> u64 {
        BothSides.opening_margin(value, quantity, ratio)
    }

    fn holding_margin(&self, value: u64, long: u64, short: u64, ratio: u64) -> u64 {
        if long.saturating_add(short) > MAX_MARGIN_TEU {
            return 0;
        }
        margin(value, long.max(short), ratio)
    }
}

// The share of the value that the ratio says, up to a whole fen. The ceilings keep the product within 10^18.
fn margin(value: u64, teu: u64, ratio: u64) -> u64
    ensures { result ≡ rated value teu ratio }
{
    if value > MAX_MARGIN_VALUE_UNITS || teu > MAX_MARGIN_TEU || ratio > MAX_RATIO {
        return 0;
    }
    let product = value * teu * ratio;
    let fen = product.div_ceil(RATIO_PARTS * FEN_UNITS);
    fen * FEN_UNITS
}
