// The lines that tell what was found.
ghost use Rattle.std.specs.Prelude.{Some};
ghost use Rattle.notices.specs.Lines.{counts_line, fault_line, error_line};

use crate::fault::BundleFault;
use crate::inspection::{Counts, InspectError};
use std::error::Error;
use std::fmt;
use systems::fault::Fault;

impl fmt::Display for Counts {
    ghost output = { λ counts. Some (counts_line counts) };

    fn fmt<W: fmt::Write>(&self, f: &mut fmt::Formatter<W>) -> fmt::Result {
        let Counts { states, reached } = self;
        write!(f, "states {states} reached {reached}")
    }
}

impl fmt::Display for BundleFault {
    ghost output = { λ fault. Some (fault_line fault) };

    fn fmt<W: fmt::Write>(&self, f: &mut fmt::Formatter<W>) -> fmt::Result {
        let number = self.number();
        let part = self.part();
        let place = self.place();
        write!(f, "refused {number} part {part} place {place}")
    }
}

impl fmt::Display for InspectError {
    ghost output = { λ error. Some (error_line error) };

    fn fmt<W: fmt::Write>(&self, f: &mut fmt::Formatter<W>) -> fmt::Result {
        match self {
            InspectError::Fault(fault) => write!(f, "{fault}"),
            InspectError::Duty(bytes) => write!(
                f,
                "duty bytes are not read yet: {bytes} after the table"
            ),
        }
    }
}

impl Error for BundleFault {}

impl Error for InspectError {}
