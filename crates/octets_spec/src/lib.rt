// What definitions are written with: choices, lists that are counted out, and numbers in bytes (specs/), with their laws (proofs/).
#![tactic(auto)]

ghost use Rattle.octets_spec.specs.Number.{le_at, be_at, le_bytes, be_bytes, ReadsBack, ReadsBackInABuffer};

// Cites each theorem, so that the gate fails if the proof of one goes.
pub fn theorems()
    ensures le_reads_back { ReadsBack le_bytes le_at }
    ensures be_reads_back { ReadsBack be_bytes be_at }
    ensures le_in_a_buffer { ReadsBackInABuffer le_bytes le_at }
    ensures be_in_a_buffer { ReadsBackInABuffer be_bytes be_at }
{}
