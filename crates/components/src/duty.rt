// The duty monitor: a system in which nobody acts in both of two activities (separation of duty).
mod act;
mod acting;
mod answers;
pub mod fault;
pub mod monitor;
mod reading;
mod report;
mod taking_up;

pub use taking_up::{check, take_up};
