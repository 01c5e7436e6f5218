// A table's bytes taken up as a chart.
ghost use Rattle.std.specs.Prelude.{◌≡◌, ◌<◌};
ghost use Rattle.systems.specs.Charts.{chart_machine};
ghost use Rattle.systems.specs.StoredTable.{role_number, role_byte, Means};
ghost use Rattle.systems.specs.TableFaults.{TableTakenUp};
ghost use Rattle.systems.specs.TableReadings.{TableRead};
ghost use Rattle.systems.specs.TableChecks.{RolesRead, RowEmpty, RowRead, RowsRead};

use crate::chart::{Chart, Row};
use crate::stored_table::checks::SoundTable;
use crate::stored_table::fault::TableFault;
use crate::system::Role;
use std::array;

// The system that the bytes mean; the bare one where `check` refuses them.
pub fn take_up(bytes: &[u8]) -> Chart
    ensures { TableTakenUp bytes.now (chart_machine result) }
{
    match SoundTable::parse(bytes) {
        Ok(table) => table.chart(),
        Err(_) => Chart::bare(),
    }
}

// The system that the bytes mean, or their first fault: `check` and `take_up` in one.
pub fn read(bytes: &[u8]) -> Result<Chart, TableFault>
    ensures { TableRead bytes.now result }
{
    let sound = SoundTable::parse(bytes)?;
    Ok(sound.chart())
}

impl<'a> SoundTable<'a> {
    // The system that the table means.
    pub fn chart(&self) -> Chart
        ensures { Means self.now.table.bytes.now (chart_machine result) }
    {
        Chart {
            count: self.table.count(),
            first: self.table.first() as u8,
            roles: self.roles(),
            steps: self.rows(),
        }
    }

    fn roles(&self) -> [Role; 64]
        ensures { RolesRead self.now.table.bytes.now result }
    {
        array::from_fn(|event| self.role(event))
    }

    fn role(&self, event: usize) -> Role
        requires { event < 64 }
        ensures { role_number result ≡ role_byte self.now.table.bytes.now event }
    {
        Role::try_from(self.table.role_bytes()[event]).unwrap()
    }

    fn rows(&self) -> [Row; 256]
        ensures { RowsRead self.now.table.bytes.now result }
    {
        // A `for`: an array made by `from_fn` would be made for all 256 states, and copied whole.
        let mut rows = [[None; 64]; 256];
        'states: for state in 0..self.table.count() {
            self.fill_row(state, &mut rows[usize::from(state)]);
        }
        rows
    }

    // Writes the steps of one state into its row, which has none yet. The chain goes by record
    // numbers, as the format has it.
    fn fill_row(&self, state: u16, row: &mut Row)
        requires { RowEmpty row.old }
        ensures { RowRead self.now.table.bytes.now state row.new }
    {
        let mut at = self.table.head(state);
        'chain: while let Some(number) = at {
            let record = self.table.record_at(number);
            row[usize::from(record.event)] = Some(record.target as u8);
            at = record.next;
        }
    }
}
