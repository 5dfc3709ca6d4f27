// Numbers in bytes, of any width and in either byte order: read from a lent slice, and put into one.
#![tactic(auto)]

ghost use Rattle.std.specs.Prelude.{◌≡◌, ◌-◌};
ghost use Rattle.octets_spec.specs.Choice.{if_eq};

pub mod get;
pub mod put;

// How many bytes lie from an offset to another, and 0 if the second comes before the first.
pub fn span(from: usize, to: usize) -> usize
    ensures { result ≡ to - from }
{
    to.saturating_sub(from)
}

// One of two numbers, by whether a value is the wanted one. Both are at hand: compiled, it is no branch.
pub fn choose(value: u64, wanted: u64, same: u64, other: u64) -> u64
    ensures { result ≡ if_eq value wanted same other }
{
    if value == wanted {
        return same;
    }
    other
}
