// Worked values of the rules, as one claim about the definitions that the contracts cite (docs/RULES.md, Worked values).
#![tactic(auto)]

ghost use Rattle.values_spec.specs.Values.{Values};

// Cites the claim, so that the gate fails if its proof goes.
pub fn values()
    ensures { Values }
{}
