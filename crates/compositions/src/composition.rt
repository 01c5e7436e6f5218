// Two systems side by side, which move together by the events that they share.
mod answers;
mod checks;
pub mod fault;
mod grid;
mod parts;
mod report;
mod taking_up;

pub use checks::check;
pub use parts::Composition;
pub use taking_up::take_up;
