// Sets of states and events, the states that others lead to, and the classes of events.
#![tactic(auto)]

pub mod bit_set;
pub mod class;
pub mod event_set;
pub mod reach;
pub mod state_set;
