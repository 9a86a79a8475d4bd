// Exports: files that hold records end to end.
#![tactic(auto)]

pub mod copy;
pub mod totals;
pub mod walk;
