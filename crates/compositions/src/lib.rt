// Systems made of systems.
#![tactic(auto)]

pub mod composition;
pub mod restriction;
