// The network ID of a frame: where it lies, and the part of the frame that it is.
ghost use Rattle.std.specs.Prelude.{◌≡◌, ◌+◌, ◌≤◌};
ghost use Rattle.eb_read_spec.specs.Decode.{network_offset};
ghost use Rattle.eb_read_spec.specs.Network.{span_from, network_span, network_part, NetworkLiesInside};

use eb_read_spec::Span;

// The P flag of joining information, in its first four bytes: the address of the join proxy stands behind them.
const PROXIED: u64 = 0x4000_0000;

// No bytes, at the frame's start.
const NO_BYTES: Span = Span {
    offset: 0,
    length: 0,
};

// How many bytes of joining information stand before its network ID.
fn network_offset(s: &[u8], at: usize) -> usize
    ensures { (result ≡ network_offset s.now at) × (result ≤ 12) }
{
    4 + 8 * (octets::get::be(s, at, 4) / PROXIED % 2) as usize
}

// The bytes from an offset to another.
fn span_from(from: usize, to: usize) -> Span
    ensures { result ≡ span_from from to }
{
    if from < to {
        return Span {
            offset: from,
            length: to - from,
        };
    }
    NO_BYTES
}

// Where the network ID of a frame lies: 0 and 0 if the frame is refused, or has none, or one of no bytes.
pub fn network_span(s: &[u8]) -> Span
    ensures answer { result ≡ network_span s.now }
    ensures inside { NetworkLiesInside }
{
    let Ok(walk) = eb_examine::accepted_walk(s) else {
        return NO_BYTES;
    };
    let at = walk.joining;
    if at == 0 {
        return NO_BYTES;
    }
    span_from(at + network_offset(s, at), walk.joiningend)
}

// The network ID of a frame, as a part of its bytes, at its offset in them; the empty part at their start if the frame is refused, has none,
// or one of no bytes.
pub fn network_id(s: &[u8]) -> &[u8]
    ensures bytes { result.now ≡ network_part s.now }
    ensures place { result.ref_ptr ≡ (s.entry.ref_ptr.0, (network_span s.now).offset + s.entry.ref_ptr.1) }
{
    let span = network_span(s);
    let from = span.offset;
    let to = from + span.length;
    &s[from..to]
}
