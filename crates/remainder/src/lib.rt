// The remainder of a 64-bit number, as of an ASN by the size of a slotframe.
#![tactic(auto, using(octets_spec::proofs::ChoiceLaws::choices), unfolding(crate::specs::Remainder::remainder_of))]

ghost use Rattle.std.specs.Prelude.{◌≡◌};
ghost use Rattle.remainder.specs.Remainder.{remainder_of};

// The remainder of a number by a divisor; 0 by a divisor of 0.
pub fn remainder(number: u64, divisor: u32) -> u32
    ensures { result ≡ remainder_of number divisor }
{
    if divisor == 0 {
        return 0;
    }
    (number % u64::from(divisor)) as u32
}
