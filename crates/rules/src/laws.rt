// What the rules mean apart from how they are worked out (docs/RULES.md, "Limits", "Price rules", "Margin rules").
ghost use Rattle.rules.specs.Laws.{RulesMean};

// Limits hold their own price; averages are the nearest dollar, halves up; two quotes draw the previous price between
// them; margins are the least whole fen that is enough. The other contracts cite the same definitions.
pub fn laws_hold()
    ensures { RulesMean }
{}
