// What reading a frame gives: its number, its record, and where its elements are. Definitions (specs/) of each field from its bytes
// (Decode), of the checks (Policy, Read), of the form without enums (Form) and of the network ID (Network), and theorems about every list of
// bytes (Claims, Inside, Network).
#![tactic(auto)]

ghost use Rattle.eb_read_spec.specs.Claims.{AcceptedMayBeDecidedOn, BoundsDoNotMatter, FiveIsTheAddressing, FourIsSecurity, NumbersTo8, OneIsTheLength, SkippedFitTheFrame, ThreeIsTheType};
ghost use Rattle.eb_read_spec.specs.Inside.{AcceptedLiesInside};
ghost use Rattle.eb_read_spec.specs.Network.{NetworkIsTheRecords, NetworkLiesInside};
ghost use Rattle.eb_read_spec.specs.Witnesses.{ShortestIsRead, SomeFrameIsAccepted, SomeFrameHasJoiningInformation, EachNumberIsGiven};

// What reading gives, without enums, as C has it: the number of a frame, and its record, which is the blank one if the number is not 0.
#[repr(C)]
#[derive(Clone, Copy)]
pub struct FormReading {
    pub number: u8,
    pub beacon: eb_record_spec::BeaconForm,
}

// A part of the bytes of a frame, as C has it: where it starts and how many bytes it has.
#[repr(C)]
#[derive(Clone, Copy)]
pub struct Span {
    pub offset: usize,
    pub length: usize,
}

// Cites each theorem, so that the gate fails if the proof of one goes.
pub fn theorems()
    ensures numbers_to_8 { NumbersTo8 }
    ensures one_is_the_length { OneIsTheLength }
    ensures three_is_the_type { ThreeIsTheType }
    ensures four_is_security { FourIsSecurity }
    ensures five_is_the_addressing { FiveIsTheAddressing }
    ensures bounds_do_not_matter { BoundsDoNotMatter }
    ensures skipped_fit_the_frame { SkippedFitTheFrame }
    ensures accepted_may_be_decided_on { AcceptedMayBeDecidedOn }
    ensures accepted_lies_inside { AcceptedLiesInside }
    ensures network_lies_inside { NetworkLiesInside }
    ensures network_is_the_records { NetworkIsTheRecords }
    ensures shortest_is_read { ShortestIsRead }
    ensures some_frame_is_accepted { SomeFrameIsAccepted }
    ensures some_frame_has_joining_information { SomeFrameHasJoiningInformation }
    ensures each_number_is_given { EachNumberIsGiven }
{}
