// Numbers of fixed widths at offsets that are known to lie inside a slice: read without a test, so that a number is one load.
ghost use Rattle.std.specs.Prelude.{◌≡◌, ◌+◌, ◌/◌, ◌≤◌, length, get_or};
ghost use Rattle.octets_spec.specs.Number.{le_at, be_at};

pub(crate) fn le16(s: &[u8], at: usize) -> u16
    requires { at + 2 ≤ length s.now }
    ensures { result ≡ le_at 2 s.now at }
{
    u16::from_le_bytes([s[at], s[at + 1]])
}

pub(crate) fn le40(s: &[u8], at: usize) -> u64
    requires { at + 5 ≤ length s.now }
    ensures { result ≡ le_at 5 s.now at }
{
    u64::from_le_bytes([s[at], s[at + 1], s[at + 2], s[at + 3], s[at + 4], 0, 0, 0])
}

pub(crate) fn be32(s: &[u8], at: usize) -> u32
    requires { at + 4 ≤ length s.now }
    ensures { (result ≡ be_at 4 s.now at) × (result / 0x4000_0000 ≡ get_or s.now at 0 / 0x40) }
{
    u32::from_be_bytes([s[at], s[at + 1], s[at + 2], s[at + 3]])
}

pub(crate) fn be64(s: &[u8], at: usize) -> u64
    requires { at + 8 ≤ length s.now }
    ensures { result ≡ be_at 8 s.now at }
{
    u64::from_be_bytes([
        s[at],
        s[at + 1],
        s[at + 2],
        s[at + 3],
        s[at + 4],
        s[at + 5],
        s[at + 6],
        s[at + 7],
    ])
}
