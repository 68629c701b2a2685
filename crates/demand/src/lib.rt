// Demand over all graphs of a sheet: blocks due, cost, demand, frame, frame load, task list. It knows no
// sheet: the graphs' numbers are lent to it in rows.
#![tactic(auto)]

pub mod rows; // the graphs as they are handed in
pub mod length; // demand at a length
pub mod frame; // frame and frame load
pub mod tasks; // task list
