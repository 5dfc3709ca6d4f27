// The record of a form without enums, as C has it, which forms are a record's (eb_record_spec/specs/Form.antt), and the blank record.
#![tactic(auto)]

ghost use Rattle.std.specs.Prelude.{◌≡◌};
ghost use Rattle.eb_record_spec.specs.Record.{blank_beacon};
ghost use Rattle.eb_record_spec.specs.Form.{form_of, sequence_from, address_from, beacon_of, is_beacon};

use eb_record_spec::{Beacon, BeaconForm};
use mac_header_spec::{Address, SequenceNumber};

// Whether a form is a record's: no number where there is no sequence number, and no short source over 16 bits.
pub fn is_beacon(form: BeaconForm) -> bool
    ensures { result ≡ is_beacon form }
{
    let sequence = eb_record_spec::sequence_in(form.sequenced, form.sequence);
    let source = eb_record_spec::address_in(form.extended, form.source);
    sequence.is_ok() & source.is_ok()
}

// A sequence number from its mark and its number, whatever the number is where there is none. Two fields of a form are no value that `From` could
// take.
pub fn sequence_from(sequenced: bool, number: u8) -> SequenceNumber
    ensures { result ≡ sequence_from sequenced number }
{
    if sequenced {
        return SequenceNumber::Number(number);
    }
    SequenceNumber::Absent
}

// An address from its kind and its number; a short one is cut to 16 bits.
pub fn address_from(extended: bool, number: u64) -> Address
    ensures { result ≡ address_from extended number }
{
    if extended {
        return Address::Extended(number);
    }
    Address::Short((number % 0x1_0000) as u16)
}

// The record of a form, of one that is no record's too: fields are told by it without a test of the whole form. `Beacon::try_from` tests it.
pub fn beacon_of(form: BeaconForm) -> Beacon
    ensures { result ≡ beacon_of form }
{
    let sequence = sequence_from(form.sequenced, form.sequence);
    let source = address_from(form.extended, form.source);
    let synchronization = form.synchronization;
    let timeslot = form.timeslot;
    let slotframe = form.slotframe;
    let joining = form.joining;
    Beacon {
        sequence,
        pan: form.pan,
        source,
        synchronization,
        timeslot,
        hopping: form.hopping,
        slotframe,
        joining,
    }
}

// The form of the blank record.
pub fn blank_form() -> BeaconForm
    ensures { result ≡ form_of blank_beacon }
{
    BeaconForm::default()
}

// The blank record, which a refused reading gives.
pub fn blank() -> Beacon
    ensures { result ≡ blank_beacon }
{
    beacon_of(blank_form())
}
