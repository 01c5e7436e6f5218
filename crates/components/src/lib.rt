// Systems that keep a fixed rule, made from a few bytes.
#![tactic(auto)]

pub mod duty;
