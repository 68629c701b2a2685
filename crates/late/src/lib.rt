// 01, answer 21: the smallest late length of a sheet whose graphs' numbers are lent in rows.
#![tactic(auto)]

pub mod end; // the length from which on none can be late
pub mod glance; // what is tried before demand itself
pub mod cycle; // a table over one cycle of the short periods
pub mod search; // the smallest late length
