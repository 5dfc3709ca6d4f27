// Numbers in bytes, of any width to 8 and in either order, read at an offset of a lent slice. Every function is total: past the end of the
// slice a byte reads as 0.
ghost use Rattle.std.specs.Prelude.{◌≡◌, ◌≤◌, ◌<◌, ◌^◌, min, length, get_or};
ghost use Rattle.octets_spec.specs.Number.{le_at, be_at};

// The byte at an offset.
pub fn byte(s: &[u8], at: usize) -> u64
    ensures { (result ≡ get_or s.now at 0) × (result < 256) }
{
    match s.get(at) {
        Some(byte) => u64::from(*byte),
        None => 0,
    }
}

// From the last byte back, which is the most significant.
fn le_within(s: &[u8], at: usize, width: u8) -> u64
    requires { (at < length s.now) × (width ≤ 8) }
    ensures { (result ≡ le_at width s.now at) × (result < 256 ^ width) }
{
    let mut number: u64 = 0;
    for i in (0..width).rev() {
        number = number * 256 + byte(s, at + usize::from(i));
    }
    number
}

// The number in `width` bytes from an offset on, least significant byte first.
pub fn le(s: &[u8], at: usize, width: u8) -> u64
    ensures { (result ≡ le_at (min width 8) s.now at) × (result < 256 ^ min width 8) }
{
    if s.len() <= at {
        return 0;
    }
    le_within(s, at, width.min(8))
}

// From the first byte on, which is the most significant.
fn be_within(s: &[u8], at: usize, width: u8) -> u64
    requires { (at < length s.now) × (width ≤ 8) }
    ensures { (result ≡ be_at width s.now at) × (result < 256 ^ width) }
{
    let mut number: u64 = 0;
    for i in 0..width {
        number = number * 256 + byte(s, at + usize::from(i));
    }
    number
}

// The number in `width` bytes from an offset on, most significant byte first.
pub fn be(s: &[u8], at: usize, width: u8) -> u64
    ensures { (result ≡ be_at (min width 8) s.now at) × (result < 256 ^ min width 8) }
{
    if s.len() <= at {
        return 0;
    }
    be_within(s, at, width.min(8))
}
