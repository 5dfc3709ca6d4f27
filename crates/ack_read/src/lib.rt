// Reading an acknowledgement: its record, or why it is refused.
#![tactic(auto)]

ghost use Rattle.std.specs.Prelude.{◌≡◌, true, IfOk};
ghost use Rattle.octets_spec.specs.Number.{le_at};
ghost use Rattle.mac_header_spec.specs.Fields.{mac_header_of};
ghost use Rattle.ack_record_spec.specs.Record.{form_of, is_ack};
ghost use Rattle.ack_grammar_spec.specs.Claims.{ReadAsSaid, FormReadAsSaid};
ghost use Rattle.ack_read_spec.specs.Claims.{NumbersTo7, OneIsTheLength, NeverABeaconToo};
ghost use Rattle.ack_read_spec.specs.Read.{Says, ack_from, answer_of, found_of, read_ack, form_reading, reading_of};

use ack_read_spec::AckReading;
use ack_record_spec::{Ack, AckForm};
use refusal::Refusal;

mod correction;
mod policy;

// Where the content of the correction starts in the header list of a frame, or the list's first fault.
fn found_of(s: &[u8]) -> Result<usize, Refusal>
    ensures { Says result (found_of s.now) }
{
    let (_, offsets) = mac_header::layout(s);
    let at = offsets.elements;
    let end = offsets.end;
    crate::correction::find(s, at, end)
}

// The form of the record of a frame whose correction's content starts at an offset.
fn decode(s: &[u8], at: usize) -> AckForm
    ensures { (result ≡ form_of (ack_from (mac_header_of s.now) (le_at 2 s.now at))) × (is_ack result ≡ true) }
{
    let header = mac_header::read(s);
    let control = header.control;
    let word = octets::get::le(s, at, 2);
    AckForm {
        sequenced: control.suppressed == 0,
        sequence: header.sequence,
        pan: header.pan,
        destination_extended: control.destination == mac_header_spec::EXTENDED,
        destination: header.destination,
        source_extended: control.source == mac_header_spec::EXTENDED,
        source: header.source,
        correction: crate::correction::correction_of(word),
        nack: word / 0x8000 % 2 == 1,
    }
}

// The form of the record that a frame's bytes say.
fn form_in(s: &[u8]) -> Result<AckForm, Refusal>
    ensures answer { reading_of result ≡ form_reading (read_ack s.now) }
    ensures record { IfOk result (λ form. is_ack form ≡ true) }
{
    crate::policy::mac_header_fault(s)?;
    let at = found_of(s)?;
    Ok(decode(s, at))
}

// Reads a frame: its number and its record without enums, as C has it.
pub fn read_form(s: &[u8]) -> AckReading
    ensures answer { result ≡ form_reading (read_ack s.now) }
    ensures record { is_ack result.ack ≡ true }
    ensures as_said { FormReadAsSaid s.now result.number result.ack }
{
    match form_in(s) {
        Ok(ack) => AckReading {
            number: refusal::DONE,
            ack,
        },
        Err(refusal) => AckReading {
            number: refusal.number(),
            ack: ack_record_spec::blank_form(),
        },
    }
}

// Reads a frame: the record that its bytes say by the grammar, or a refusal if they say none.
pub fn read(s: &[u8]) -> Result<Ack, Refusal>
    ensures answer { answer_of result ≡ read_ack s.now }
    ensures numbers { NumbersTo7 }
    ensures length { OneIsTheLength }
    ensures beacon { NeverABeaconToo }
    ensures as_said { ReadAsSaid s.now (answer_of result).number (answer_of result).ack }
{
    let form = form_in(s)?;
    Ok(ack_record_spec::ack_of(form))
}
