// Systems written out as charts.
ghost use Rattle.std.specs.Prelude.{◌≡◌, ◌<◌};
ghost use Rattle.systems.specs.Machine.{bare};
ghost use Rattle.systems.specs.Flat.{ListsRoles, ListsSteps, ListsStepsOf};
ghost use Rattle.systems.specs.Charts.{chart_machine};

use crate::bare::Bare;
use crate::chart::{Chart, Row};
use crate::system::{Role, System};
use std::array;

impl Chart {
    // The bare system: one state and no event.
    pub fn bare() -> Chart
        ensures { chart_machine result ≡ bare }
    {
        Chart::of(&Bare)
    }

    // Any system, asked once for each role and for each step of a state.
    pub fn of<S: System>(system: &S) -> Chart
        ensures { chart_machine result ≡ S.System.machine system.now }
    {
        Chart {
            count: system.count(),
            first: system.first(),
            roles: ask_roles(system),
            steps: ask_steps(system),
        }
    }
}

fn ask_roles<S: System>(system: &S) -> [Role; 64]
    ensures { ListsRoles (S.System.machine system.now) result }
{
    array::from_fn(
        |event| -> Role
            requires { event < 64 }
            ensures { result ≡ (S.System.machine system.entry.now).role event }
        { system.role(event as u8) },
    )
}

fn ask_steps<S: System>(system: &S) -> [Row; 256]
    ensures { ListsSteps (S.System.machine system.now) result }
{
    // A `for`: an array made by `from_fn` would be made for all 256 states, and copied whole.
    let mut steps = [[None; 64]; 256];
    'states: for state in 0..system.count() {
        steps[usize::from(state)] = ask_steps_of(system, state as u8);
    }
    steps
}

// The steps of one state.
fn ask_steps_of<S: System>(system: &S, state: u8) -> Row
    ensures { ListsStepsOf (S.System.machine system.now) state result }
{
    array::from_fn(
        |event| -> Option<u8>
            requires { event < 64 }
            ensures { result ≡ (S.System.machine system.entry.now).step state event }
        { system.step(state, event as u8) },
    )
}
