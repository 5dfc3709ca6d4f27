// Whether the elements that a walk noted lie inside a frame, each with a length that its kind has.
ghost use Rattle.std.specs.Prelude.{◌≡◌};
ghost use Rattle.eb_read_spec.specs.Inside.{bytes_inside, timeslot_inside, slotframe_inside, joining_inside, lies_inside};

// The P flag in the first byte of joining information.
const PROXIED: u64 = 0x40;

// Whether this many bytes from an offset on lie inside the frame.
fn bytes_inside(s: &[u8], at: usize, size: usize) -> bool
    ensures { result ≡ bytes_inside s.now at size }
{
    at <= s.len() && size <= s.len() - at
}

// Whether a timeslot element that goes from an offset to another lies inside the frame.
fn timeslot_inside(s: &[u8], at: usize, to: usize) -> bool
    ensures { result ≡ timeslot_inside s.now at to }
{
    let size = to.saturating_sub(at);
    (to <= s.len()) & ((size == 25) | ((size == 27) | (size == 1)))
}

// Whether a slotframe and link element lies inside the frame with all its links.
fn slotframe_inside(s: &[u8], at: usize) -> bool
    ensures { result ≡ slotframe_inside s.now at }
{
    if s.len() < at {
        return false;
    }
    let links = octets::get::byte(s, at + 4) as usize;
    links <= 16 && bytes_inside(s, at, 5 + 5 * links)
}

// Whether joining information that goes from an offset to another lies inside the frame.
fn joining_inside(s: &[u8], at: usize, to: usize) -> bool
    ensures { result ≡ joining_inside s.now at to }
{
    if at == 0 {
        return true;
    }
    let size = to.saturating_sub(at);
    let least = 4 + 8 * (octets::get::byte(s, at) / PROXIED % 2) as usize;
    (to <= s.len()) & ((least <= size) & (size <= least + 16))
}

// Whether all elements that a walk noted lie inside the frame.
pub fn is_inside(s: &[u8], walk: ie_walk_spec::Walk) -> bool
    ensures { result ≡ lies_inside s.now walk }
{
    bytes_inside(s, walk.synchronization, 6)
        & (timeslot_inside(s, walk.timeslot, walk.timeslotend)
            & (bytes_inside(s, walk.hopping, 1)
                & (slotframe_inside(s, walk.slotframe)
                    & joining_inside(s, walk.joining, walk.joiningend))))
}
