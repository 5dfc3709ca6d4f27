// Text, decimal and hex in a buffer: definitions (specs/Text.antt) and their laws.
#![tactic(auto)]
