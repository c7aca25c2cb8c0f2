// An amount's text: yuan with four decimals, a sign only below zero (docs/RULES.md, "Print-out").
ghost use Rattle.std.specs.Prelude.{◌≡◌, ℕ, ◌/◌, Some};
ghost use Rattle.lines.specs.Amount.{decimals_of, sign_of, plain, yuan};

use std::fmt;

// Units, ten-thousandths of a yuan.
#[derive(Clone, Copy, Debug, PartialEq, Eq)]
pub struct Amount(pub i64);

// Units that are never below zero, as margins and fees.
#[derive(Clone, Copy, Debug, PartialEq, Eq)]
pub struct Magnitude(pub u64);

impl Magnitude {
    pub fn yuan(self) -> u64
        ensures { result ≡ self.0 / 10000 }
    {
        self.0 / 10_000
    }

    // The four digits behind the point.
    pub fn decimals(self) -> [u64; 4]
        ensures { result ≡ decimals_of self.0 }
    {
        let n = self.0;
        [n / 1_000, n / 100, n / 10, n].map(|front| front % 10)
    }
}

impl Amount {
    pub fn sign(self) -> &'static str
        ensures { result.now ≡ sign_of self.0 }
    {
        if self.0 < 0 { "-" } else { "" }
    }
}

impl fmt::Display for Magnitude {
    ghost output = { λ m. Some (plain m.0) };

    fn fmt<W: fmt::Write>(&self, f: &mut fmt::Formatter<W>) -> fmt::Result {
        let yuan = self.yuan();
        let [a, b, c, d] = self.decimals();
        write!(f, "{yuan}.{a}{b}{c}{d}")
    }
}

impl fmt::Display for Amount {
    ghost output = { λ a. Some (yuan a.0) };

    fn fmt<W: fmt::Write>(&self, f: &mut fmt::Formatter<W>) -> fmt::Result {
        let sign = self.sign();
        let size = Magnitude(self.0.unsigned_abs());
        write!(f, "{sign}{size}")
    }
}
