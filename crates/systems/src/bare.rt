// The bare system: one state and no event.
ghost use Rattle.systems.specs.Machine.{bare};
ghost use Rattle.std.proofs.Common.{rules};

use crate::system::{Role, System};

#[derive(Clone, Copy)]
pub struct Bare;

impl System for Bare {
    ghost machine = { λ _. bare };

    ghost lawful = { Prim.search rules };

    fn count(&self) -> u16 {
        1
    }

    fn first(&self) -> u8 {
        0
    }

    fn role(&self, _event: u8) -> Role {
        Role::Absent
    }

    fn step(&self, _state: u8, _event: u8) -> Option<u8> {
        None
    }
}
