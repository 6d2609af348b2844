// The header of a function in a listing, and the lists of a full one.
#![tactic(auto)]

pub mod header;
pub mod list;
