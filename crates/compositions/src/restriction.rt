// A system without some of its events: they are possible in no state any more.
mod answers;
mod parts;
mod taking_up;

pub use parts::Restriction;
pub use taking_up::take_up;
