// Numbers put as bytes, of any width and in either order, at an offset of a lent slice. Every public function is total: putting past the
// end of the slice changes nothing.
ghost use Rattle.std.specs.Prelude.{◌≡◌, ◌+◌, ◌%◌, ◌≤◌, ◌^◌, length, set};
ghost use Rattle.octets_spec.specs.Number.{le_at, be_at, le_bytes, be_bytes, stored};

fn put_byte(buffer: &mut [u8], at: usize, value: u8)
    ensures { buffer.new ≡ set buffer.old at value }
{
    if at < buffer.len() {
        buffer[at] = value;
    }
}

// Bytes that all lie inside the slice are stored without a test of each.
fn put_le_within(buffer: &mut [u8], at: usize, width: u8, number: u64)
    requires { at + width ≤ length buffer.old }
    ensures { buffer.new ≡ stored buffer.old at (le_bytes width number) }
{
    let mut rest = number;
    for i in 0..width {
        buffer[at + usize::from(i)] = (rest % 256) as u8;
        rest = rest / 256;
    }
}

// Puts the `width` low bytes of a number from an offset on, least significant first. Read there, they give the number back.
pub fn put_le(buffer: &mut [u8], at: usize, width: u8, number: u64)
    ensures buffer { buffer.new ≡ stored buffer.old at (le_bytes width number) }
    ensures back { at + width ≤ length buffer.old → le_at width buffer.new at ≡ number % 256 ^ width }
{
    let length = buffer.len();
    if length <= at {
        return;
    }
    let inside = length - at;
    if inside < width as usize {
        put_le_within(buffer, at, inside as u8, number);
        return;
    }
    put_le_within(buffer, at, width, number);
}

// Puts the `width` low bytes of a number from an offset on, most significant first. Read there, they give the number back.
pub fn put_be(buffer: &mut [u8], at: usize, width: u8, number: u64)
    ensures buffer { buffer.new ≡ stored buffer.old at (be_bytes width number) }
    ensures back { at + width ≤ length buffer.old → be_at width buffer.new at ≡ number % 256 ^ width }
{
    if buffer.len() <= at {
        return;
    }
    let mut high = number;
    for i in (0..width).rev() {
        put_byte(buffer, at + usize::from(i), (high % 256) as u8);
        high = high / 256;
    }
}
