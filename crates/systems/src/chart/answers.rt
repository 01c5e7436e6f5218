// A chart as a system.
ghost use Rattle.systems.specs.Charts.{chart_machine};
ghost use Rattle.std.proofs.Common.{rules, arith};

use crate::chart::Chart;
use crate::system::{Role, System};

impl System for Chart {
    ghost machine = { chart_machine };

    ghost lawful = { Prim.first_of (Prim.search rules, Prim.grind (arith, Self.row.coded.inj)) };

    fn count(&self) -> u16 {
        self.count
    }

    fn first(&self) -> u8 {
        self.first
    }

    fn role(&self, event: u8) -> Role {
        match self.roles.get(usize::from(event)) {
            Some(role) => *role,
            None => Role::Absent,
        }
    }

    fn step(&self, state: u8, event: u8) -> Option<u8> {
        *self.steps[usize::from(state)].get(usize::from(event))?
    }
}
