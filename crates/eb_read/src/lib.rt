// Reading a beacon: its record or a refusal, and its network ID as a part of the frame.
#![tactic(auto, using(eb_read_spec::proofs::NetworkLaws::networks))]

ghost use Rattle.std.specs.Prelude.{◌≡◌};
ghost use Rattle.eb_read_spec.specs.Read.{answer_of, read_frame};
ghost use Rattle.eb_grammar_spec.specs.Claims.{ReadAsSaid};
ghost use Rattle.eb_read_spec.specs.Claims.{NumbersTo8, OneIsTheLength, AcceptedMayBeDecidedOn};

use eb_record_spec::Beacon;
use refusal::Refusal;

pub mod network;

// Reads a frame: the record that its bytes say by the grammar, or a refusal if they say none.
pub fn read(s: &[u8]) -> Result<Beacon, Refusal>
    ensures answer { answer_of result ≡ read_frame s.now }
    ensures numbers { NumbersTo8 }
    ensures length { OneIsTheLength }
    ensures accepted { AcceptedMayBeDecidedOn }
    ensures as_said { ReadAsSaid s.now (answer_of result).number (answer_of result).beacon }
{
    let found = eb_examine::examine(s);
    found.verdict?;
    let form = eb_decode::decode(s, found.walk);
    Ok(eb_record::beacon_of(form))
}
