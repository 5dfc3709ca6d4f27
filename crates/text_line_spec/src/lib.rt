// The line of text that a reading is printed as: definitions (specs/Line.antt) and their laws.
#![tactic(auto)]
