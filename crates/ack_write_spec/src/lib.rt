// Writing an acknowledgement: its frame in the order on air (specs/Frame.antt), the limits within which it can be written (specs/Limits.antt), and
// what holds of every record (specs/Claims.antt). The checks, the answer and the buffer are those of any record
// (eb_write_spec/specs/Write.antt). The crate `ack_write` does it.
#![tactic(auto)]

ghost use Rattle.ack_write_spec.specs.Claims.{FormNumbers, LengthIsTheFormula, LengthsAreMet, LengthsFrom12To25, NeverTooLong, WriteNumbers};

// Cites each theorem, so that the gate fails if the proof of one goes.
pub fn theorems()
    ensures write_numbers { WriteNumbers }
    ensures form_numbers { FormNumbers }
    ensures length_is_the_formula { LengthIsTheFormula }
    ensures lengths_from_12_to_25 { LengthsFrom12To25 }
    ensures lengths_are_met { LengthsAreMet }
    ensures never_too_long { NeverTooLong }
{}
