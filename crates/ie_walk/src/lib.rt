// The lists of elements of a frame, read step by step.
#![tactic(auto)]

pub mod header_list;
pub mod payload_list;
