// A restriction as a system.
ghost use Rattle.compositions.specs.Restrictions.{restricted};
ghost use Rattle.unwinding.specs.EventSets.{allows};
ghost use Rattle.std.proofs.Common.{rules};

use crate::restriction::parts::Restriction;
use systems::system::{Role, System};

impl<S: System> System for Restriction<S> {
    ghost machine = { λ s. restricted (allows s.shut) (S.System.machine s.below) };

    ghost lawful = { Prim.search rules };

    fn count(&self) -> u16 {
        self.below.count()
    }

    fn first(&self) -> u8 {
        self.below.first()
    }

    fn role(&self, event: u8) -> Role {
        self.below.role(event)
    }

    fn step(&self, state: u8, event: u8) -> Option<u8> {
        if self.shut.contains(event) {
            return None;
        }
        self.below.step(state, event)
    }
}
