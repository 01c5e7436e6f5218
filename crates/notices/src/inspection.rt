// What is found in a bundle.
ghost use Rattle.std.specs.Prelude.{◌≡◌};
ghost use Rattle.notices.specs.declared.inspection.InspectError.TheVariants.{Fault};
ghost use Rattle.systems.specs.Charts.{chart_machine};
ghost use Rattle.notices.specs.Inspections.{CountsOf, Inspected};

use crate::bundle::Bundle;
use crate::fault::BundleFault;
use systems::chart::Chart;
use systems::system::System;
use unwinding::reach::reached_count;

// The number of states of a bundle's system, and of those that are reached.
#[derive(Clone, Copy, PartialEq, Eq, Debug)]
pub struct Counts {
    pub states: u16,
    pub reached: u16,
}

// Why a bundle is not counted.
#[derive(Clone, Copy, PartialEq, Eq, Debug)]
pub enum InspectError {
    // Its first fault.
    Fault(BundleFault),
    // It has no fault so far, but this many duty bytes, which are not read yet.
    Duty(usize),
}

// By hand, since a derived `From` promises nothing of its result.
impl From<BundleFault> for InspectError {
    ghost from_gives = { λ f r. r ≡ Fault f };

    fn from(f: BundleFault) -> InspectError {
        InspectError::Fault(f)
    }
}

// What a bundle holds, whatever its bytes are.
pub fn inspect(bytes: &[u8]) -> Result<Counts, InspectError>
    ensures { Inspected bytes.now result }
{
    let bundle = Bundle::parse(bytes)?;
    let table = bundle.sound_table()?;
    match bundle.duty().len() {
        0 => Ok(Counts::of(&table.chart())),
        duty => Err(InspectError::Duty(duty)),
    }
}

impl Counts {
    fn of(chart: &Chart) -> Counts
        ensures { CountsOf (chart_machine chart.now) result }
    {
        Counts {
            states: chart.count(),
            reached: reached_count(chart),
        }
    }
}
