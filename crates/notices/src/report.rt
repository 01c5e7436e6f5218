// The number, part and place by which a fault is told.
ghost use Rattle.std.specs.Prelude.{◌≡◌};
ghost use Rattle.notices.specs.BundleFaults.{fault_number, fault_part, fault_place};

use crate::fault::BundleFault;
use systems::fault::Fault;

impl Fault for BundleFault {
    ghost number = { fault_number };

    ghost place = { fault_place };

    fn number(&self) -> u8 {
        match self {
            BundleFault::Short => 1,
            BundleFault::Letter(_) => 2,
            BundleFault::LineFeed => 3,
            BundleFault::Cut => 4,
            BundleFault::Table(f) => f.number(),
        }
    }

    fn place(&self) -> u16 {
        match self {
            BundleFault::Letter(e) => u16::from(*e),
            BundleFault::Table(f) => f.place(),
            _ => 0,
        }
    }
}

impl BundleFault {
    // Whose fault it is, as it is printed: 0 the bundle's own, 1 the table's.
    pub fn part(&self) -> u8
        ensures { result ≡ fault_part self.now }
    {
        match self {
            BundleFault::Table(_) => 1,
            _ => 0,
        }
    }
}
