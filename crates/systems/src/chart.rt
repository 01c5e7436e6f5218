// A system written out flat: each question is answered by one read.
ghost use Rattle.std.specs.Prelude.{◌<◌, ◌≤◌};
ghost use Rattle.systems.specs.Flat.{StepsLawful};

use crate::system::Role;

mod answers;
mod writing_out;

// The steps of one state, by event.
pub(crate) type Row = [Option<u8>; 64];

#[derive(Drop)]
pub struct Chart {
    pub(crate) count: u16,
    pub(crate) first: u8,
    pub(crate) roles: [Role; 64],
    // A row for each state that there can be, whatever the count: nothing in the library allocates.
    pub(crate) steps: [Row; 256],
    ghost some: { 1 ≤ count },
    ghost most: { count ≤ 256 },
    ghost begins: { first < count },
    ghost goes: { StepsLawful count roles steps },
}
