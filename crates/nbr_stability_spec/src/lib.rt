// Parents do not flap: definitions and theorems (specs/Stability.antt); the crate `nbr_replay` runs logs under them.
#![tactic(auto)]

ghost use Rattle.nbr_stability_spec.specs.Stability.{AtMost101Changes, BoundIsMet, NoneRefused, ParentsDoNotFlap, Reaches101};

// Cites each theorem, so that the gate fails if the proof of one goes.
pub fn theorems()
    ensures parents_do_not_flap { ParentsDoNotFlap }
    ensures at_most_101_changes { AtMost101Changes }
    ensures none_refused { NoneRefused }
    ensures bound_is_met { BoundIsMet }
    ensures reaches_101 { Reaches101 }
{}
