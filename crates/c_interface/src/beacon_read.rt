// Reading a beacon for C.
ghost use Rattle.std.specs.Prelude.{◌≡◌};
ghost use Rattle.eb_read_spec.specs.Read.{read_frame};
ghost use Rattle.eb_read_spec.specs.Form.{form_reading};
ghost use Rattle.eb_read_spec.specs.Network.{network_span};
ghost use Rattle.eb_grammar_spec.specs.Claims.{FormReadAsSaid};

use eb_read_spec::FormReading;

// The number of a frame and its record, which is the blank one if the frame is refused: done exactly with the record that the bytes say
// by the grammar.
#[unsafe(no_mangle)]
pub extern "C" fn tesolvagna_beacon_read(s: &[u8]) -> FormReading
    ensures answer { result ≡ form_reading (read_frame s.now) }
    ensures as_said { FormReadAsSaid s.now result.number result.beacon }
{
    let found = eb_examine::examine(s);
    if let Err(refusal) = found.verdict {
        return FormReading {
            number: refusal.number(),
            beacon: eb_record::blank_form(),
        };
    }
    let walk = found.walk;
    FormReading {
        number: refusal::DONE,
        beacon: eb_decode::decode(s, walk),
    }
}

// Where the network ID of a frame lies in its bytes: 0 and 0 if the frame is refused, or has none, or one of no bytes.
#[unsafe(no_mangle)]
pub extern "C" fn tesolvagna_beacon_network_id(s: &[u8]) -> eb_read_spec::Span
    ensures { result ≡ network_span s.now }
{
    eb_read::network::network_span(s)
}
