// The fields of a table's bytes.
ghost use Rattle.std.specs.Prelude.{◌≡◌, ℕ, ◌+◌, ◌<◌, length, slice_index};
ghost use Rattle.systems.specs.StoredTable.{word, count_of, first_of, records_of, role_byte, chain_begin};
ghost use Rattle.systems.specs.TableFaults.{Numbers, TableParsed};
ghost use Rattle.systems.specs.TableChecks.{Sized, Linked, RecordFound, FieldsOf};

use crate::stored_table::fault::TableFault;

const MOST_STATES: u16 = 256;

const MOST_RECORDS: u16 = 8192;

// Where the fields lie: three counts, the role bytes, then heads and records.
const COUNT: usize = 0;

const FIRST: usize = 2;

const RECORDS: usize = 4;

const ROLES: usize = 6;

const FIXED_PART: usize = 70;

// Bytes as long as the counts in them say, and so with room for every field.
#[derive(Clone, Copy)]
pub(crate) struct Table<'a> {
    bytes: &'a [u8],
    ghost sized: { Sized bytes.now },
}

// One record of a table.
#[derive(Clone, Copy)]
pub(crate) struct Record {
    pub(crate) event: u16,
    pub(crate) target: u16,
    // The number of the next record of the chain.
    pub(crate) next: Option<u16>,
}

impl<'a> Table<'a> {
    // The table of the bytes, or the first fault of their counts.
    pub(crate) fn parse(bytes: &'a [u8]) -> Result<Table<'a>, TableFault>
        ensures { TableParsed (λ table. table.bytes.now) bytes.now result }
    {
        if bytes.len() < FIXED_PART {
            return Err(TableFault::Short);
        }
        let count = word_at(bytes, COUNT);
        if count == 0 || count > MOST_STATES {
            return Err(TableFault::Count);
        }
        if word_at(bytes, FIRST) >= count {
            return Err(TableFault::First);
        }
        let records = word_at(bytes, RECORDS);
        if records > MOST_RECORDS {
            return Err(TableFault::Records);
        }
        if bytes.len() != FIXED_PART + 2 * usize::from(count) + 6 * usize::from(records) {
            return Err(TableFault::Length);
        }
        Ok(Table { bytes })
    }

    // The number of states.
    pub(crate) fn count(&self) -> u16
        ensures { result ≡ count_of self.now.bytes.now }
    {
        word_at(self.bytes, COUNT)
    }

    // The first state.
    pub(crate) fn first(&self) -> u16
        ensures { result ≡ first_of self.now.bytes.now }
    {
        word_at(self.bytes, FIRST)
    }

    // The number of records.
    pub(crate) fn record_count(&self) -> u16
        ensures { result ≡ records_of self.now.bytes.now }
    {
        word_at(self.bytes, RECORDS)
    }

    // The role bytes, one an event.
    pub(crate) fn role_bytes(&self) -> &'a [u8]
        ensures length { length result.now ≡ 64 }
        ensures value { (e : ℕ) → e < 64 → slice_index result.now e ≡ role_byte self.now.bytes.now e }
    {
        &self.bytes[ROLES..FIXED_PART]
    }

    // The number of the record that begins the chain of `state`; `None` where the chain is empty,
    // as for what is no state.
    pub(crate) fn head(&self, state: u16) -> Option<u16>
        ensures { Linked (chain_begin self.now.bytes.now state) result }
    {
        if state < self.count() {
            link_at(self.bytes, FIXED_PART + 2 * usize::from(state))
        } else {
            None
        }
    }

    // The record of this number; `None` where there is none, as for 0.
    pub(crate) fn record(&self, number: u16) -> Option<Record>
        ensures { RecordFound self.now.bytes.now number result }
    {
        if number == 0 || number > self.record_count() {
            return None;
        }
        Some(self.record_at(number))
    }

    pub(crate) fn record_at(&self, number: u16) -> Record
        requires { Numbers self.now.bytes.now number }
        ensures { FieldsOf self.now.bytes.now number result }
    {
        let place = FIXED_PART + 2 * usize::from(self.count()) + 6 * (usize::from(number) - 1);
        Record {
            event: word_at(self.bytes, place),
            target: word_at(self.bytes, place + 2),
            next: link_at(self.bytes, place + 4),
        }
    }
}

// A two-byte field, low byte first.
fn word_at(bytes: &[u8], at: usize) -> u16
    requires { at + 1 < length bytes.now }
    ensures { result ≡ word bytes.now at }
{
    u16::from_le_bytes([bytes[at], bytes[at + 1]])
}

// A field that names a record; 0 names none.
fn link_at(bytes: &[u8], at: usize) -> Option<u16>
    requires { at + 1 < length bytes.now }
    ensures { Linked (word bytes.now at) result }
{
    match word_at(bytes, at) {
        0 => None,
        number => Some(number),
    }
}
