// What is accepted of a frame before its elements: its length, its type and version, no security, its addressing and its destination.
ghost use Rattle.std.specs.Prelude.{◌≡◌};
ghost use Rattle.refusal.specs.Refusal.{number_in};
ghost use Rattle.eb_read_spec.specs.Policy.{form_fault, mac_header_fault};

use refusal::Refusal;

// The most bytes of a frame without its check sequence.
const MOST_BYTES: usize = 125;
// The type of a beacon.
const BEACON: u64 = 0;
// The short address that all nodes receive.
const BROADCAST: u64 = 0xFFFF;

// Whether the control word is a beacon's, of the accepted form.
#[tactic(auto, using(octets_spec::proofs::ChoiceLaws::choices), unfolding(eb_read_spec::specs::Policy::form_fault))]
fn form_fault(control: mac_header_spec::Control) -> Result<(), Refusal>
    ensures { number_in result ≡ form_fault control }
{
    if control.kind != BEACON {
        return Err(Refusal::WrongType);
    }
    if control.version != mac_header_spec::VERSION_2015 {
        return Err(Refusal::WrongType);
    }
    if control.security != 0 {
        return Err(Refusal::Secured);
    }
    if control.destination != mac_header_spec::SHORT {
        return Err(Refusal::Addressing);
    }
    if control.source < mac_header_spec::SHORT {
        return Err(Refusal::Addressing);
    }
    if control.compression != 1 {
        return Err(Refusal::Addressing);
    }
    if control.elements != 1 {
        return Err(Refusal::Addressing);
    }
    Ok(())
}

// The checks before the elements, in their order.
pub fn mac_header_fault(s: &[u8]) -> Result<(), Refusal>
    ensures { number_in result ≡ mac_header_fault s.now }
{
    if MOST_BYTES < s.len() {
        return Err(Refusal::FrameTooLong);
    }
    if s.len() < 2 {
        return Err(Refusal::Cut);
    }
    let control = mac_header::control_of(octets::get::le(s, 0, 2));
    form_fault(control)?;
    let offsets = mac_header::offsets_of(control, s.len());
    if offsets.end < offsets.elements {
        return Err(Refusal::Cut);
    }
    let destination = offsets.destination;
    if octets::get::le(s, destination, 2) != BROADCAST {
        return Err(Refusal::Addressing);
    }
    Ok(())
}
