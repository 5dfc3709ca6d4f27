// The line of text that the reading of an acknowledgement is printed as: definitions (specs/AckLine.antt) and their laws.
#![tactic(auto)]
