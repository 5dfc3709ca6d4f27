// The acknowledgements that are accepted, as a grammar (specs/Grammar.antt), and that reading accepts exactly those, with the record that each
// says (specs/Claims.antt). Rows, descriptors, header elements, sequence numbers and addresses are those of the beacon's grammar.
#![tactic(auto)]

ghost use Rattle.ack_grammar_spec.specs.Claims.{Complete, IgnoredBitsDoNotCount, NothingBehindTheListCounts, OtherElementsDoNotCount, RefusedSaysNothing, ShortestIsOfTheGrammar, Sound, Unambiguous};

// Cites each theorem, so that the gate fails if the proof of one goes.
pub fn theorems()
    ensures sound { Sound }
    ensures complete { Complete }
    ensures unambiguous { Unambiguous }
    ensures refused_says_nothing { RefusedSaysNothing }
    ensures ignored_bits_do_not_count { IgnoredBitsDoNotCount }
    ensures nothing_behind_the_list_counts { NothingBehindTheListCounts }
    ensures other_elements_do_not_count { OtherElementsDoNotCount }
    ensures shortest_is_of_the_grammar { ShortestIsOfTheGrammar }
{}
