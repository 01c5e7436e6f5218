// The number and the place by which a fault is told.
ghost use Rattle.components.specs.DutyFaults.{duty_number, duty_place};

use crate::duty::fault::DutyFault;
use systems::fault::Fault;

impl Fault for DutyFault {
    ghost number = { duty_number };

    ghost place = { duty_place };

    fn number(&self) -> u8 {
        match self {
            DutyFault::Length => 15,
            DutyFault::Users => 16,
            DutyFault::Entry(_) => 17,
        }
    }

    fn place(&self) -> u16 {
        match self {
            DutyFault::Entry(e) => u16::from(*e),
            _ => 0,
        }
    }
}
