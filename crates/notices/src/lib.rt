// Bundles in, and what they hold.
#![tactic(auto)]

pub mod bundle;
pub mod fault;
pub mod inspection;
mod lines;
mod report;
