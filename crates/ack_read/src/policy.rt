// What is accepted of an acknowledgement before its elements: its length, its type and version, no security, and its addressing. The fields are
// found as those of a beacon are.
ghost use Rattle.std.specs.Prelude.{◌≡◌};
ghost use Rattle.refusal.specs.Refusal.{number_in};
ghost use Rattle.ack_read_spec.specs.Policy.{compression_of, addressing_fault, form_fault, mac_header_fault};

use refusal::Refusal;

// The most bytes of a frame without its check sequence.
const MOST_BYTES: usize = 125;
// The type of an acknowledgement.
const ACK: u64 = 2;

// PAN ID compression by the modes of destination and source.
fn compression_of(destination: u64, source: u64) -> u64
    ensures { result ≡ compression_of destination source }
{
    if destination != mac_header_spec::EXTENDED {
        return 1;
    }
    if source != mac_header_spec::EXTENDED {
        return 1;
    }
    0
}

// Whether the addresses, their compression and the presence of elements are the accepted ones.
fn addressing_fault(control: mac_header_spec::Control) -> Result<(), Refusal>
    ensures { number_in result ≡ addressing_fault control }
{
    if control.destination < mac_header_spec::SHORT {
        return Err(Refusal::Addressing);
    }
    if control.source < mac_header_spec::SHORT {
        return Err(Refusal::Addressing);
    }
    if control.compression != compression_of(control.destination, control.source) {
        return Err(Refusal::Addressing);
    }
    if control.elements != 1 {
        return Err(Refusal::Addressing);
    }
    Ok(())
}

// Whether the control word is an acknowledgement's, of the accepted form.
fn form_fault(control: mac_header_spec::Control) -> Result<(), Refusal>
    ensures { number_in result ≡ form_fault control }
{
    if control.kind != ACK {
        return Err(Refusal::WrongType);
    }
    if control.version != mac_header_spec::VERSION_2015 {
        return Err(Refusal::WrongType);
    }
    if control.security != 0 {
        return Err(Refusal::Secured);
    }
    addressing_fault(control)
}

// The checks before the elements, in their order.
pub(crate) fn mac_header_fault(s: &[u8]) -> Result<(), Refusal>
    ensures { number_in result ≡ mac_header_fault s.now }
{
    if MOST_BYTES < s.len() {
        return Err(Refusal::FrameTooLong);
    }
    if s.len() < 2 {
        return Err(Refusal::Cut);
    }
    let (control, offsets) = mac_header::layout(s);
    form_fault(control)?;
    if offsets.end < offsets.elements {
        return Err(Refusal::Cut);
    }
    Ok(())
}
