// The number and the place by which a fault is told.
ghost use Rattle.compositions.specs.CompositionFaults.{composition_number, composition_place};

use crate::composition::fault::CompositionFault;
use systems::fault::Fault;

impl Fault for CompositionFault {
    ghost number = { composition_number };

    ghost place = { composition_place };

    fn number(&self) -> u8 {
        match self {
            CompositionFault::States => 18,
            CompositionFault::Shared(_) => 19,
        }
    }

    fn place(&self) -> u16 {
        match self {
            CompositionFault::States => 0,
            CompositionFault::Shared(e) => u16::from(*e),
        }
    }
}
