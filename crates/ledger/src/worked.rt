// The worked days of docs/RULES.md, "Worked example".
ghost use Rattle.ledger.specs.Worked.{WorkedDays};

// The transitions' own definitions give every figure of the two worked days.
pub fn worked_days()
    ensures { WorkedDays }
{}
