// The acknowledgement record: what an enhanced acknowledgement says, field by field in the order on air, its form without enums, as C has it,
// and the blank record. The correction is wide enough to hold values outside its limits, so that a record that breaks them can be given and
// refused.
#![tactic(auto)]

ghost use Rattle.std.specs.Prelude.{◌≡◌};
ghost use Rattle.eb_record_spec.specs.Form.{made_where};
ghost use Rattle.ack_record_spec.specs.Record.{blank_ack, form_of, ack_of, is_ack, FormsGiveTheRecord, RecordsGiveTheForm, FormsOfNoRecord};

use mac_header_spec::{Address, SequenceNumber};
use refusal::Refusal;

// The record. The correction is in microseconds; `nack` says that the frame was not acknowledged.
#[derive(Clone, Copy)]
pub struct Ack {
    pub sequence: SequenceNumber,
    pub pan: u16,
    pub destination: Address,
    pub source: Address,
    pub correction: i32,
    pub nack: bool,
}

// The record without enums, as C has it: a mark beside the sequence number, which is 0 where the mark says that there is none, and the kind
// of each address beside its number.
#[repr(C)]
#[derive(Clone, Copy, Default)]
pub struct AckForm {
    pub sequenced: bool,
    pub sequence: u8,
    pub pan: u16,
    pub destination_extended: bool,
    pub destination: u64,
    pub source_extended: bool,
    pub source: u64,
    pub correction: i32,
    pub nack: bool,
}

// Whether a form is a record's: no number where there is no sequence number, and no short address over 16 bits.
pub fn is_ack(form: AckForm) -> bool
    ensures { result ≡ is_ack form }
{
    let sequence = eb_record_spec::sequence_in(form.sequenced, form.sequence);
    let destination = eb_record_spec::address_in(form.destination_extended, form.destination);
    let source = eb_record_spec::address_in(form.source_extended, form.source);
    sequence.is_ok() & (destination.is_ok() & source.is_ok())
}

// The record of a form, of one that is no record's too. `Ack::try_from` tests it.
pub fn ack_of(form: AckForm) -> Ack
    ensures { result ≡ ack_of form }
{
    let sequence = eb_record::sequence_from(form.sequenced, form.sequence);
    let destination = eb_record::address_from(form.destination_extended, form.destination);
    let source = eb_record::address_from(form.source_extended, form.source);
    Ack {
        sequence,
        pan: form.pan,
        destination,
        source,
        correction: form.correction,
        nack: form.nack,
    }
}

// The record of a form, where it is a record's.
impl TryFrom<AckForm> for Ack {
    type Error = Refusal;

    ghost try_from_gives = { λ form result. result ≡ made_where (is_ack form) (ack_of form) };

    fn try_from(form: AckForm) -> Result<Ack, Refusal> {
        Ok(Ack {
            sequence: eb_record_spec::sequence_in(form.sequenced, form.sequence)?,
            pan: form.pan,
            destination: eb_record_spec::address_in(form.destination_extended, form.destination)?,
            source: eb_record_spec::address_in(form.source_extended, form.source)?,
            correction: form.correction,
            nack: form.nack,
        })
    }
}

// The form of the blank record, which a refused reading gives to C.
pub fn blank_form() -> AckForm
    ensures { result ≡ form_of blank_ack }
{
    AckForm::default()
}

// The blank record, which a refused reading gives.
pub fn blank() -> Ack
    ensures { result ≡ blank_ack }
{
    ack_of(blank_form())
}

// Cites each theorem about records and their forms, so that the gate fails if the proof of one goes.
pub fn theorems()
    ensures forms_give_the_record { FormsGiveTheRecord }
    ensures records_give_the_form { RecordsGiveTheForm }
    ensures forms_of_no_record { FormsOfNoRecord }
{}
