// Writing and reading acknowledgements together: what is written is of the grammar and reads back, and what is read can be written
// (specs/ReadBack.antt).
#![tactic(auto)]

ghost use Rattle.ack_round_trip_spec.specs.ReadBack.{AcceptedFits, AcceptedReadsBack, FormsReadBack, FramesDiffer, FramesReadBack, ReadFormsAreWritten, ShortestIsWrittenBack, WrittenIsNotLonger, WrittenIsOfTheGrammar};

// Cites each theorem, so that the gate fails if the proof of one goes.
pub fn theorems()
    ensures written_is_of_the_grammar { WrittenIsOfTheGrammar }
    ensures frames_read_back { FramesReadBack }
    ensures frames_differ { FramesDiffer }
    ensures forms_read_back { FormsReadBack }
    ensures accepted_fits { AcceptedFits }
    ensures written_is_not_longer { WrittenIsNotLonger }
    ensures accepted_reads_back { AcceptedReadsBack }
    ensures read_forms_are_written { ReadFormsAreWritten }
    ensures shortest_is_written_back { ShortestIsWrittenBack }
{}
