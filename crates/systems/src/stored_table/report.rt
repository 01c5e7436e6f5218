// The number and the place by which a fault is told.
ghost use Rattle.systems.specs.TableFaults.{record_number, record_place, table_number, table_place};

use crate::fault::Fault;
use crate::stored_table::fault::{RecordFault, TableFault};

impl Fault for RecordFault {
    ghost number = { record_number };

    ghost place = { record_place };

    fn number(&self) -> u8 {
        match self {
            RecordFault::Event(_) => 12,
            RecordFault::Target(_) => 13,
            RecordFault::Next(_) => 14,
        }
    }

    fn place(&self) -> u16 {
        match self {
            RecordFault::Event(k) | RecordFault::Target(k) | RecordFault::Next(k) => *k,
        }
    }
}

impl Fault for TableFault {
    ghost number = { table_number };

    ghost place = { table_place };

    fn number(&self) -> u8 {
        match self {
            TableFault::Short => 5,
            TableFault::Count => 6,
            TableFault::First => 7,
            TableFault::Records => 8,
            TableFault::Length => 9,
            TableFault::Role(_) => 10,
            TableFault::Head(_) => 11,
            TableFault::Record(f) => f.number(),
        }
    }

    fn place(&self) -> u16 {
        match self {
            TableFault::Role(e) => u16::from(*e),
            TableFault::Head(s) => u16::from(*s),
            TableFault::Record(f) => f.place(),
            _ => 0,
        }
    }
}
