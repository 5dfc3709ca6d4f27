// What a firmware or a gateway calls from C: numbers, structs by value and lent slices. include/tesolvagna.h describes each function.
#![tactic(auto)]

pub mod acknowledgement;
pub mod beacon_fields;
pub mod beacon_read;
pub mod beacon_write;
pub mod rank;
pub mod slot;
pub mod table;
