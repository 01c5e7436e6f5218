// The stored table: a system as bytes, with each state's steps in a chain of records.
mod checks;
pub mod fault;
mod report;
mod table;
mod taking_up;

pub use checks::{SoundTable, check};
pub use taking_up::{read, take_up};
