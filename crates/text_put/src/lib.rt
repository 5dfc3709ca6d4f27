// Text, decimal and hex put into a line, and parts of a line, which are made of these. A text or a number that does not fit is not put at
// all: the line is then as it was.
#![tactic(auto)]

ghost use Rattle.std.specs.Prelude.{◌≡◌, ◌+◌, ◌*◌, length};
ghost use Rattle.octets_spec.specs.Number.{stored};
ghost use Rattle.text_put_spec.specs.Text.{decimal as text_decimal, hexadecimal, hex_octets, fitting};
ghost use Rattle.text_put_spec.specs.Part.{field as part_field, refused_text};
ghost use Rattle.text_put.specs.Puts.{Puts};

// A lent buffer that parts are put into one behind the other, and the offset behind the last of them.
#[derive(Drop)]
pub struct Line<'a> {
    pub buffer: &'a mut [u8],
    pub end: usize,
}

impl<'a> Line<'a> {
    // Puts a text.
    pub fn text(&mut self, text: &[u8])
        ensures end { self.new.end ≡ self.old.end + length (fitting (length self.old.buffer.now) self.old.end text.now) }
        ensures buffer { self.new.buffer.now ≡ stored self.old.buffer.now self.old.end (fitting (length self.old.buffer.now) self.old.end text.now) }
        ensures part { Puts (length text.now) self.old text.now self.new }
    {
        let room = self.buffer.len();
        if room < text.len() || room - text.len() < self.end {
            return;
        }
        let end = self.end + text.len();
        self.buffer[self.end..end].copy_from_slice(text);
        self.end = end;
    }

    // Puts a number in decimal, without leading zeros.
    pub fn decimal(&mut self, value: u64)
        ensures end { self.new.end ≡ self.old.end + length (fitting (length self.old.buffer.now) self.old.end (text_decimal value)) }
        ensures buffer { self.new.buffer.now ≡ stored self.old.buffer.now self.old.end (fitting (length self.old.buffer.now) self.old.end (text_decimal value)) }
        ensures part { Puts 20 self.old (text_decimal value) self.new }
    {
        let mut digits = [0u8; 20];
        let count = io::decimal(value, &mut digits);
        self.text(&digits[..count]);
    }

    // Puts a number in hex, in lower case, with zeros in front up to width digits; a width above 16 counts as 16.
    pub fn hex(&mut self, value: u64, width: usize)
        ensures end { self.new.end ≡ self.old.end + length (fitting (length self.old.buffer.now) self.old.end (hexadecimal width value)) }
        ensures buffer { self.new.buffer.now ≡ stored self.old.buffer.now self.old.end (fitting (length self.old.buffer.now) self.old.end (hexadecimal width value)) }
        ensures part { Puts 16 self.old (hexadecimal width value) self.new }
    {
        let mut space = [0u8; 16];
        let count = io::hex(value, width, &mut space);
        self.text(&space[..count]);
    }

    // Puts a byte in hex, in two digits.
    fn octet(&mut self, value: u8)
        ensures { Puts 2 self.old (hexadecimal 2 value) self.new }
    {
        self.hex(u64::from(value), 2);
    }

    // Puts octets in hex, two digits each. Where not all have room, they may be put in part.
    pub fn octets(&mut self, values: &[u8])
        ensures part { Puts (2 * length values.now) self.old (hex_octets values.now) self.new }
    {
        for value in values {
            self.octet(*value);
        }
    }

    // Puts a number behind its name. Where the longest number has no room, the name may be put alone.
    pub fn field(&mut self, name: &[u8], value: u64)
        ensures part { Puts (length name.now + 20) self.old (part_field name.now value) self.new }
    {
        self.text(name);
        self.decimal(value);
    }

    // Puts the line of a refusal. Where the longest number has no room, it may be put in part.
    pub fn refused(&mut self, number: u8)
        ensures part { Puts 29 self.old (refused_text number) self.new }
    {
        self.field(b"refused ", u64::from(number));
        self.text(b"\n");
    }
}
