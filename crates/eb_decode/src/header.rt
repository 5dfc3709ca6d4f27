// The fields of a MAC header as a record has them, without enums.
ghost use Rattle.std.specs.Prelude.{◌≡◌, true, ◌&&◌, ◌||◌, ◌^◌, ltb, eqb};
ghost use Rattle.eb_decode.specs.Header.{header_form};

// The sequence number, which is 0 where there is none, the PAN, and the source with its kind: marks beside numbers, as `BeaconForm`, which is
// C's, has them.
#[derive(Clone, Copy)]
pub(crate) struct HeaderForm {
    pub sequenced: bool,
    pub sequence: u8,
    pub pan: u16,
    pub extended: bool,
    pub source: u64,
}

// The sequence number, the PAN and the source of a frame. They are those of a record: no number where there is none, and no short source
// over 16 bits.
pub(crate) fn header_at(s: &[u8]) -> HeaderForm
    ensures { (result ≡ header_form s.now) × (((result.sequenced || eqb result.sequence 0) && (result.extended || ltb result.source (2 ^ 16))) ≡ true) }
{
    let header = mac_header::read(s);
    HeaderForm {
        sequenced: header.control.suppressed == 0,
        sequence: header.sequence,
        pan: header.pan,
        extended: header.control.source == mac_header_spec::EXTENDED,
        source: header.source,
    }
}
