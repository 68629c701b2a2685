// The two forms of a sheet, each made from the other (01).
#![tactic(auto)]

mod turn; // what both directions have in common
pub mod unpack; // bytes to numbers
pub mod pack; // numbers to bytes
