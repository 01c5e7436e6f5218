// What can be wrong with a table.
ghost use Rattle.std.specs.Prelude.{◌≡◌};
ghost use Rattle.systems.specs.declared.stored_table.fault.TableFault.TheVariants.{Record};

// What is wrong with a record, with the record's number.
#[derive(Clone, Copy, PartialEq, Eq, Debug)]
pub enum RecordFault {
    // Its event is above 63 or no event of the system.
    Event(u16),
    // Its target is no state.
    Target(u16),
    // Its next names no record, or one whose event is not greater.
    Next(u16),
}

#[derive(Clone, Copy, PartialEq, Eq, Debug)]
pub enum TableFault {
    // Shorter than its fixed part.
    Short,
    // The state count is 0 or above 256.
    Count,
    // The first state is no state.
    First,
    // More than 8,192 records.
    Records,
    // Not as long as its counts say.
    Length,
    // The event's role byte is above 3.
    Role(u8),
    // The state's head names no record.
    Head(u8),
    Record(RecordFault),
}

// By hand, since a derived `From` promises nothing of its result.
impl From<RecordFault> for TableFault {
    ghost from_gives = { λ f r. r ≡ Record f };

    fn from(f: RecordFault) -> TableFault {
        TableFault::Record(f)
    }
}
