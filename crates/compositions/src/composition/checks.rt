// The checks of two systems that are to be composed, in their order.
ghost use Rattle.std.specs.Prelude.{Decides};
ghost use Rattle.compositions.specs.CompositionFaults.{Clash, CompositionChecked};
ghost use Rattle.compositions.specs.Arranging.{Arranged, FirstClash};

use crate::composition::fault::CompositionFault;
use crate::composition::grid::Grid;
use std::ops::Range;
use systems::system::{Role, System};

// The first fault of the two, if they have any.
pub fn check<L: System, R: System>(left: &L, right: &R) -> Result<(), CompositionFault>
    ensures { CompositionChecked (L.System.machine left.now)
        (R.System.machine right.now) result }
{
    arrange(left, right)?;
    Ok(())
}

// The states of the two, or their first fault.
pub(crate) fn arrange<L: System, R: System>(left: &L, right: &R) -> Result<Grid, CompositionFault>
    ensures { Arranged (L.System.machine left.now) (R.System.machine right.now) result }
{
    let grid = Grid::of(left, right)?;
    match first_clash(left, right, 0..64) {
        Some(e) => Err(CompositionFault::Shared(e)),
        None => Ok(grid),
    }
}

// The lowest of the events whose roles clash. Two references go from one function to the next here;
// a struct of them would be made in `arrange` and taken apart in each.
fn first_clash<L: System, R: System>(left: &L, right: &R, mut events: Range<u8>) -> Option<u8>
    ensures { FirstClash (L.System.machine left.now) (R.System.machine right.now)
        events.start events.end result }
{
    events.find(|&e| clash(left.role(e), right.role(e)))
}

// Whether an event may not have these roles in two parts.
fn clash(left: Role, right: Role) -> bool
    ensures { Decides result (Clash left right) }
{
    match (left, right) {
        (Role::Absent, _) | (_, Role::Absent) => false,
        (Role::Input, Role::Output) | (Role::Output, Role::Input) => false,
        _ => true,
    }
}
