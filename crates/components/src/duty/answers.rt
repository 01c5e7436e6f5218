// A duty monitor as a system.
ghost use Rattle.std.specs.Prelude.{◌≡◌};
ghost use Rattle.components.specs.Acts.{act_at};
ghost use Rattle.components.specs.Monitors.{monitor_machine};
ghost use Rattle.components.specs.DutyMachines.{duty_lawful};

use crate::duty::act::Act;
use crate::duty::acting::power_of_3;
use crate::duty::monitor::DutyMonitor;
use systems::system::{Role, System};

impl System for DutyMonitor {
    ghost machine = { monitor_machine };

    ghost lawful = { λ d. duty_lawful d.users d.few d.acts d.long d.known };

    fn count(&self) -> u16 {
        u16::from(power_of_3(self.users))
    }

    fn first(&self) -> u8 {
        0
    }

    fn role(&self, event: u8) -> Role {
        // Looked at where it stands: a composition asks both its parts for roles at each step.
        match self.acts.get(usize::from(event)) {
            Some(Some(_)) => Role::Input,
            _ => Role::Absent,
        }
    }

    fn step(&self, state: u8, event: u8) -> Option<u8> {
        match self.act_of(event) {
            Some(act) if state < power_of_3(self.users) => act.step_from(state),
            _ => None,
        }
    }
}

impl DutyMonitor {
    // The act that `event` is; `None` where it is no event of the monitor.
    fn act_of(&self, event: u8) -> Option<Act>
        ensures { result ≡ act_at self.now.acts event }
    {
        *self.acts.get(usize::from(event))?
    }
}
