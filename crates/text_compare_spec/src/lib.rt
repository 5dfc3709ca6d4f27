// The text that a comparison of two beacons is printed as: definitions (specs/CompareText.antt) and their laws.
#![tactic(auto)]
