// Theorems about writing and reading: what is written reads back (specs/ReadBack.antt), what reading accepts can be written
// (specs/Accepted.antt), and what comes back of a record that is written and read (specs/RoundTrip.antt).
#![tactic(auto)]

ghost use Rattle.eb_round_trip_spec.specs.Accepted.{AcceptedFits, AcceptedReadsBack, ReadFormsAreWritten, ShortestFormIsWritten, ShortestIsWrittenBack, WrittenIsNotLonger, WrittenIsShort};
ghost use Rattle.eb_round_trip_spec.specs.ReadBack.{WrittenIsOfTheGrammar, FramesReadBack, FormsReadBack, FramesDiffer, LengthIsTheFormula, LengthsFrom38To177, LengthsAreMet, FullRecordIsWritable};

// Cites each theorem, so that the gate fails if the proof of one goes.
pub fn theorems()
    ensures written_is_of_the_grammar { WrittenIsOfTheGrammar }
    ensures frames_read_back { FramesReadBack }
    ensures forms_read_back { FormsReadBack }
    ensures frames_differ { FramesDiffer }
    ensures length_is_the_formula { LengthIsTheFormula }
    ensures lengths_from_38_to_177 { LengthsFrom38To177 }
    ensures lengths_are_met { LengthsAreMet }
    ensures full_record_is_writable { FullRecordIsWritable }
    ensures accepted_fits { AcceptedFits }
    ensures written_is_not_longer { WrittenIsNotLonger }
    ensures written_is_short { WrittenIsShort }
    ensures accepted_reads_back { AcceptedReadsBack }
    ensures shortest_is_written_back { ShortestIsWrittenBack }
    ensures read_forms_are_written { ReadFormsAreWritten }
    ensures shortest_form_is_written { ShortestFormIsWritten }
{}
