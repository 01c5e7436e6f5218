// Duty bytes checked, and taken up as a monitor: as for a stored table, but the promises differ (what
// the bytes mean, and which runs there are), so that one trait for both would be longer than the two.
ghost use Rattle.std.specs.Prelude.{OnOk};
ghost use Rattle.components.specs.DutyFaults.{DutyChecked, DutyTakenUp, DutyRuns, Sound};
ghost use Rattle.components.specs.Monitors.{monitor_machine};

use crate::duty::fault::DutyFault;
use crate::duty::monitor::DutyMonitor;
use crate::duty::reading::parts;

// The first fault of duty bytes, if they have any.
pub fn check(bytes: &[u8]) -> Result<(), DutyFault>
    ensures value { DutyChecked bytes.now result }
    ensures sound { OnOk result (Sound bytes.now) }
{
    parts(bytes)?;
    Ok(())
}

// The monitor of the bytes; the bare system where `check` refuses them.
pub fn take_up(bytes: &[u8]) -> DutyMonitor
    ensures taken_up { DutyTakenUp bytes.now (monitor_machine result) }
    ensures runs { DutyRuns bytes.now (monitor_machine result) }
{
    match DutyMonitor::read(bytes) {
        Ok(monitor) => monitor,
        Err(_) => DutyMonitor::bare(),
    }
}
