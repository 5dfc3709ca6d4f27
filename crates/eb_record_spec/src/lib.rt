// The beacon record: what an Enhanced Beacon says, field by field in the order on air, and its form without enums, as C has it.
// Fields are wide enough to hold values outside their limits, so that a record that breaks a limit can be given and refused.
#![tactic(auto)]

ghost use Rattle.std.specs.Prelude.{◌≡◌};
ghost use Rattle.eb_record_spec.specs.Form.{sequence_from, address_from, beacon_of, is_sequence, is_address, is_beacon, made_where};
ghost use Rattle.eb_record_spec.specs.Form.{FormsGiveTheRecord, RecordsGiveTheForm, ExtendedHasItsForm, FormsOfNoRecord};
ghost use Rattle.eb_record_spec.specs.Record.{blank_joining, blank_link};

use mac_header_spec::{Address, SequenceNumber};
use refusal::Refusal;

// The synchronization element: the ASN (5 bytes on air) and the join metric.
#[repr(C)]
#[derive(Clone, Copy, Default)]
pub struct Synchronization {
    pub asn: u64,
    pub metric: u8,
}

// The timeslot element: the template's ID and, where they are there, its twelve timings in microseconds.
#[repr(C)]
#[derive(Clone, Copy, Default)]
pub struct TimeslotTemplate {
    pub id: u8,
    pub timed: bool,
    pub timings: [u32; 12],
}

// A link of the slotframe: its timeslot, its channel offset and its options, which are one byte on air. The options have 16 bits here, so that
// a link has no padding; over 255 they are outside the limits of writing.
#[repr(C)]
#[derive(Clone, Copy, Default)]
pub struct Link {
    pub timeslot: u16,
    pub channel_offset: u16,
    pub options: u16,
}

// The slotframe and link element: the slotframe's handle and size, and its links, of which the first `count` are used. The count is one byte on
// air and has 16 bits here, so that no padding stands before the links; over 16 it is outside the limits of writing.
#[repr(C)]
#[derive(Clone, Copy, Default)]
pub struct Slotframe {
    pub handle: u8,
    pub size: u16,
    pub count: u16,
    pub links: [Link; 16],
}

// Joining information: whether it is there, its R and P flags, its three priorities, the address of the join proxy (there if P is
// set), and the network ID, of which the first `length` bytes are used.
#[repr(C)]
#[derive(Clone, Copy, Default)]
pub struct JoiningInformation {
    pub present: bool,
    pub router: bool,
    pub proxied: bool,
    pub proxy: u8,
    pub rank: u16,
    pub pan: u8,
    pub address: u64,
    pub length: u8,
    pub network: [u8; 16],
}

// The record.
#[derive(Clone, Copy)]
pub struct Beacon {
    pub sequence: SequenceNumber,
    pub pan: u16,
    pub source: Address,
    pub synchronization: Synchronization,
    pub timeslot: TimeslotTemplate,
    pub hopping: u8,
    pub slotframe: Slotframe,
    pub joining: JoiningInformation,
}

// The record without enums, as C has it: a mark beside the sequence number, which is 0 where the mark says that there is none, and the
// kind of the source address beside its number.
#[repr(C)]
#[derive(Clone, Copy, Default)]
pub struct BeaconForm {
    pub sequenced: bool,
    pub sequence: u8,
    pub pan: u16,
    pub extended: bool,
    pub source: u64,
    pub synchronization: Synchronization,
    pub timeslot: TimeslotTemplate,
    pub hopping: u8,
    pub slotframe: Slotframe,
    pub joining: JoiningInformation,
}

// A link whose numbers are all zero: what a slotframe holds behind its used links.
pub fn blank_link() -> Link
    ensures { result ≡ blank_link }
{
    Link::default()
}

// No joining information: what the blank record and a frame without it have.
pub fn blank_joining() -> JoiningInformation
    ensures { result ≡ blank_joining }
{
    JoiningInformation::default()
}

// A sequence number from its mark and its number, which must be 0 where the mark says that there is none.
pub fn sequence_in(sequenced: bool, number: u8) -> Result<SequenceNumber, Refusal>
    ensures { result ≡ made_where (is_sequence sequenced number) (sequence_from sequenced number) }
{
    match (sequenced, number) {
        (true, number) => Ok(SequenceNumber::Number(number)),
        (false, 0) => Ok(SequenceNumber::Absent),
        (false, _) => Err(Refusal::OutOfLimits),
    }
}

// An address from its kind and its number, which must have 16 bits where it is short.
pub fn address_in(extended: bool, number: u64) -> Result<Address, Refusal>
    ensures { result ≡ made_where (is_address extended number) (address_from extended number) }
{
    if extended {
        return Ok(Address::Extended(number));
    }
    match u16::try_from(number) {
        Ok(short) => Ok(Address::Short(short)),
        Err(_) => Err(Refusal::OutOfLimits),
    }
}

// The record of a form, where it is a record's.
impl TryFrom<BeaconForm> for Beacon {
    type Error = Refusal;

    ghost try_from_gives = { λ form result. result ≡ made_where (is_beacon form) (beacon_of form) };

    fn try_from(form: BeaconForm) -> Result<Beacon, Refusal> {
        Ok(Beacon {
            sequence: sequence_in(form.sequenced, form.sequence)?,
            pan: form.pan,
            source: address_in(form.extended, form.source)?,
            synchronization: form.synchronization,
            timeslot: form.timeslot,
            hopping: form.hopping,
            slotframe: form.slotframe,
            joining: form.joining,
        })
    }
}

// Cites each theorem about records and their forms, so that the gate fails if the proof of one goes.
pub fn theorems()
    ensures forms_give_the_record { FormsGiveTheRecord }
    ensures records_give_the_form { RecordsGiveTheForm }
    ensures extended_has_its_form { ExtendedHasItsForm }
    ensures forms_of_no_record { FormsOfNoRecord }
{}
