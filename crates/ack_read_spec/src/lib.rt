// What reading an acknowledgement gives: its number and its record. Definitions (specs/) of the checks before the elements (Policy), of the
// correction and of reading (Read), and theorems about every list of bytes (Claims, Witnesses).
#![tactic(auto)]

ghost use Rattle.ack_read_spec.specs.Claims.{FiveIsTheAddressing, FourIsSecurity, NeverABeaconToo, NumbersTo7, OneIsTheLength, ThreeIsTheType};
ghost use Rattle.ack_read_spec.specs.Witnesses.{CorrectionsAreSigned, EachNumberIsGiven, ShortestIsRead};

// The number of a frame and its record without enums, as C has it; the blank record's form if the number is not 0.
#[repr(C)]
#[derive(Clone, Copy)]
pub struct AckReading {
    pub number: u8,
    pub ack: ack_record_spec::AckForm,
}

// Cites each theorem, so that the gate fails if the proof of one goes.
pub fn theorems()
    ensures numbers_to_7 { NumbersTo7 }
    ensures one_is_the_length { OneIsTheLength }
    ensures three_is_the_type { ThreeIsTheType }
    ensures four_is_security { FourIsSecurity }
    ensures five_is_the_addressing { FiveIsTheAddressing }
    ensures never_a_beacon_too { NeverABeaconToo }
    ensures shortest_is_read { ShortestIsRead }
    ensures each_number_is_given { EachNumberIsGiven }
    ensures corrections_are_signed { CorrectionsAreSigned }
{}
