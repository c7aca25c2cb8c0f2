// The units that money, prices and ratios are counted in, and the ceilings that keep every sum within 64 bits
// (docs/RULES.md, "Units and ceilings"). The clauses cite the same constants from specs/Units.antt.
ghost use Rattle.std.specs.Prelude.{◌≡◌};
ghost use Rattle.rules.specs.Units.{yuan_units, fen_units, min_price, max_price, min_rate, max_rate, ratio_parts, min_ratio, max_ratio, max_fee, accounts, places, max_days, max_side, max_day, max_paid_in, kept_yuan, day_pay_outs, wide_percent, narrow_percent, max_margin_value, max_margin_teu};

// A unit is a ten-thousandth of a yuan.
pub const YUAN_UNITS: u64 = 10_000;

pub const FEN_UNITS: u64 = 100;

// A price is in whole dollars per TEU.
pub const MIN_PRICE_DOLLARS: u64 = 1;

pub const MAX_PRICE_DOLLARS: u64 = 9_999;

// A rate is in units per dollar.
pub const MIN_RATE_UNITS: u64 = 10_000;

pub const MAX_RATE_UNITS: u64 = 99_999;

// A margin ratio is in ten-thousandths.
pub const RATIO_PARTS: u64 = 10_000;

pub const MIN_RATIO: u64 = 1;

pub const MAX_RATIO: u64 = 10_000;

// A fee is per TEU, and may be 0.
pub const MAX_FEE_FEN: u64 = 10_000;

pub const ACCOUNTS: usize = 32;

// Where one contract each can stand.
pub const PLACES: usize = 12;

pub const MAX_DAYS: u64 = 3_000;

// What an account holds on one side of a place.
pub const MAX_SIDE_TEU: u64 = 50_000;

// What an account trades at a place in a day.
pub const MAX_DAY_TEU: u64 = 100_000;

// What an account pays in over all days.
pub const MAX_PAID_IN_FEN: u64 = 1_000_000_000_000;

// What a pay-out leaves to the account.
pub const KEPT_YUAN: u64 = 50;

pub const DAY_PAY_OUTS: u64 = 2;

// How far the limits lie from the base price on a contract's first and last day.
pub const WIDE_PERCENT: u64 = 10;

// How far they lie from the previous price on any other.
pub const NARROW_PERCENT: u64 = 5;

// No margin is asked for a dearer TEU; a mark stays below.
pub const MAX_MARGIN_VALUE_UNITS: u64 = 1_000_000_000;

// Nor for more TEU, which two full sides reach.
pub const MAX_MARGIN_TEU: u64 = 100_000;

// What the code computes with is what the clauses speak of.
pub fn units_agree()
    ensures money { (YUAN_UNITS ≡ yuan_units) × (FEN_UNITS ≡ fen_units) }
    ensures prices { (MIN_PRICE_DOLLARS ≡ min_price) × (MAX_PRICE_DOLLARS ≡ max_price) }
    ensures rates { (MIN_RATE_UNITS ≡ min_rate) × (MAX_RATE_UNITS ≡ max_rate) }
    ensures ratios { (RATIO_PARTS ≡ ratio_parts) × (MIN_RATIO ≡ min_ratio) × (MAX_RATIO ≡ max_ratio) }
    ensures cash { (MAX_FEE_FEN ≡ max_fee) × (MAX_PAID_IN_FEN ≡ max_paid_in) }
    ensures payouts { (KEPT_YUAN ≡ kept_yuan) × (DAY_PAY_OUTS ≡ day_pay_outs) }
    ensures counts { (ACCOUNTS ≡ accounts) × (PLACES ≡ places) × (MAX_DAYS ≡ max_days) }
    ensures quantities { (MAX_SIDE_TEU ≡ max_side) × (MAX_DAY_TEU ≡ max_day) }
    ensures percents { (WIDE_PERCENT ≡ wide_percent) × (NARROW_PERCENT ≡ narrow_percent) }
    ensures margins { (MAX_MARGIN_VALUE_UNITS ≡ max_margin_value) × (MAX_MARGIN_TEU ≡ max_margin_teu) }
{}
