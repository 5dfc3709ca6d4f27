// The frames that are accepted, as a grammar (specs/Grammar.antt); that reading accepts exactly those, with the record that each says
// (specs/Claims.antt); what follows from that (specs/Follows.antt); and frames of it (specs/Witnesses.antt).
#![tactic(auto)]

ghost use Rattle.eb_grammar_spec.specs.Claims.{Complete, RefusedSaysNothing, Sound, Unambiguous};
ghost use Rattle.eb_grammar_spec.specs.Follows.{BothTimingFormsSayTheSame, BytesBehindGroup15DoNotCount, HeaderElementsDoNotCount, IgnoredBitsDoNotCount, KnownContentsCount, NothingCountsBehind7F, OrderDoesNotCount, ReservedJoiningBitsDoNotCount, UnknownElementsDoNotCount, UnknownSubElementsDoNotCount};
ghost use Rattle.eb_grammar_spec.specs.Witnesses.{AnUnknownElementIsPutIn, ManifoldIsOfTheGrammar, ShortestIsOfTheGrammar};

// Cites each theorem, so that the gate fails if the proof of one goes.
pub fn theorems()
    ensures sound { Sound }
    ensures complete { Complete }
    ensures unambiguous { Unambiguous }
    ensures refused_says_nothing { RefusedSaysNothing }
    ensures ignored_bits_do_not_count { IgnoredBitsDoNotCount }
    ensures header_elements_do_not_count { HeaderElementsDoNotCount }
    ensures nothing_counts_behind_7f { NothingCountsBehind7F }
    ensures known_contents_count { KnownContentsCount }
    ensures bytes_behind_group_15_do_not_count { BytesBehindGroup15DoNotCount }
    ensures unknown_elements_do_not_count { UnknownElementsDoNotCount }
    ensures unknown_sub_elements_do_not_count { UnknownSubElementsDoNotCount }
    ensures order_does_not_count { OrderDoesNotCount }
    ensures reserved_joining_bits_do_not_count { ReservedJoiningBitsDoNotCount }
    ensures both_timing_forms_say_the_same { BothTimingFormsSayTheSame }
    ensures shortest_is_of_the_grammar { ShortestIsOfTheGrammar }
    ensures an_unknown_element_is_put_in { AnUnknownElementIsPutIn }
    ensures manifold_is_of_the_grammar { ManifoldIsOfTheGrammar }
{}
