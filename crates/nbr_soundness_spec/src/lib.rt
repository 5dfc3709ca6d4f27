// Theorems about the calls of the neighbour table (specs/Soundness.antt), and tables that meet their hypotheses (specs/Witness.antt).
#![tactic(auto)]

ghost use Rattle.nbr_soundness_spec.specs.Soundness.{BestComesFirst, BestIsAPlace, CallsKeepTables, ChangesGain641, EligibleCosts, EvaluateKeepsPlaces, FailedIsNotEligible, ForgetMakesRoom, FreshTagJoins, OwnRank};
ghost use Rattle.nbr_soundness_spec.specs.Witness.{Witnessed};

// Cites each theorem, so that the gate fails if the proof of one goes.
pub fn theorems()
    ensures calls_keep_tables { CallsKeepTables }
    ensures best_comes_first { BestComesFirst }
    ensures best_is_a_place { BestIsAPlace }
    ensures eligible_costs { EligibleCosts }
    ensures evaluate_keeps_places { EvaluateKeepsPlaces }
    ensures changes_gain_641 { ChangesGain641 }
    ensures forget_makes_room { ForgetMakesRoom }
    ensures own_rank { OwnRank }
    ensures fresh_tag_joins { FreshTagJoins }
    ensures failed_is_not_eligible { FailedIsNotEligible }
    ensures witnessed { Witnessed }
{}
