// The checks of a table after its counts, in their order.
ghost use Rattle.std.specs.Prelude.{OnOk};
ghost use Rattle.systems.specs.TableFaults.{Numbers, TableChecked, TableParsed};
ghost use Rattle.systems.specs.TableChecks.{RolesKnown, HeadsKnown, Framed, Sound, Passes, RecordPasses, RecordsPass};

use crate::stored_table::fault::{RecordFault, TableFault};
use crate::stored_table::table::Table;
use crate::system::Role;

// A table without fault, which `chart` takes up.
#[derive(Clone, Copy)]
pub struct SoundTable<'a> {
    pub(crate) table: Table<'a>,
    ghost sound: { Sound table.bytes.now },
}

impl<'a> SoundTable<'a> {
    // The table of the bytes, or their first fault.
    pub fn parse(bytes: &'a [u8]) -> Result<SoundTable<'a>, TableFault>
        ensures { TableParsed (λ sound. sound.table.bytes.now) bytes.now result }
    {
        let table = Table::parse(bytes)?;
        table.check_roles()?;
        table.check_heads()?;
        table.check_records()?;
        Ok(SoundTable { table })
    }
}

// The first fault of a table's bytes, if they have any.
pub fn check(bytes: &[u8]) -> Result<(), TableFault>
    ensures value { TableChecked bytes.now result }
    ensures sound { OnOk result (Sound bytes.now) }
{
    SoundTable::parse(bytes)?;
    Ok(())
}

impl<'a> Table<'a> {
    fn check_roles(&self) -> Result<(), TableFault>
        ensures { Passes RolesKnown self.now.bytes.now result }
    {
        match self
            .role_bytes()
            .iter()
            .position(|&byte| Role::try_from(byte).is_err())
        {
            Some(e) => Err(TableFault::Role(e as u8)),
            None => Ok(()),
        }
    }

    fn check_heads(&self) -> Result<(), TableFault>
        requires { RolesKnown self.now.bytes.now }
        ensures { Passes HeadsKnown self.now.bytes.now result }
    {
        // A `for`: as `find` it has the same test in a closure, and a longer proof.
        'states: for s in 0..self.count() {
            match self.head(s) {
                Some(head) if head > self.record_count() => return Err(TableFault::Head(s as u8)),
                _ => {}
            }
        }
        Ok(())
    }

    fn check_records(&self) -> Result<(), RecordFault>
        requires { Framed self.now.bytes.now }
        ensures { RecordsPass self.now.bytes.now result }
    {
        // A `for`: its body passes on an error by `?`.
        'records: for number in 1..=self.record_count() {
            self.check_record(number)?;
        }
        Ok(())
    }

    fn check_record(&self, number: u16) -> Result<(), RecordFault>
        requires { Numbers self.now.bytes.now number }
        ensures { RecordPasses self.now.bytes.now number result }
    {
        let record = self.record_at(number);
        let role = self.role_bytes().get(usize::from(record.event));
        if !role.is_some_and(|&byte| Role::try_from(byte) != Ok(Role::Absent)) {
            return Err(RecordFault::Event(number));
        }
        if record.target >= self.count() {
            return Err(RecordFault::Target(number));
        }
        let Some(next) = record.next else {
            return Ok(());
        };
        match self.record(next) {
            Some(next) if next.event > record.event => Ok(()),
            _ => Err(RecordFault::Next(number)),
        }
    }
}
