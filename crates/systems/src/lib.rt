// Finite state-event systems: what they answer, and how they are made.
#![tactic(auto)]

pub mod bare;
pub mod chart;
pub mod fault;
pub mod stored_table;
pub mod system;
