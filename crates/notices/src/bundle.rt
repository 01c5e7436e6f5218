// A bundle: class letters, a line feed, the table's length, the table, then nothing or duty bytes.
ghost use Rattle.std.specs.Prelude.{◌≡◌, ℕ, ◌+◌, ◌<◌, ◌≤◌, length, MatchResult, OnOk, slice_index};
ghost use Rattle.notices.specs.Bundles.{table_length, table_of, duty_of, Whole, LettersKnown};
ghost use Rattle.notices.specs.BundleFaults.{BundleChecked, FirstBundleFault};
ghost use Rattle.notices.specs.BundleTables.{BundleTable};

use crate::fault::BundleFault;
use systems::stored_table::{self, SoundTable};
use unwinding::class::Class;

// Where the parts of a bundle begin, after the 64 letters.
const LINE_FEED: usize = 64;

const TABLE_LENGTH: usize = 65;

const TABLE: usize = 67;

// Bytes with room for the parts that every bundle has, which are those before the table.
#[derive(Clone, Copy)]
struct Head<'a> {
    bytes: &'a [u8],
    ghost long: { 67 ≤ length bytes.now },
}

// The bytes of a bundle with room for its table. (That the letters name classes is no ghost field: the
// fact of one may have one proof only, and the prover does not see that of this one.)
#[derive(Clone, Copy)]
pub(crate) struct Bundle<'a> {
    head: Head<'a>,
    ghost room: { 67 + table_length head.bytes.now ≤ length head.bytes.now },
}

// The first fault of a bundle, if it has any.
pub fn check(bytes: &[u8]) -> Result<(), BundleFault>
    ensures value { BundleChecked bytes.now result }
    ensures whole { OnOk result (Whole bytes.now) }
{
    let bundle = Bundle::parse(bytes)?;
    stored_table::check(bundle.table())?;
    Ok(())
}

impl<'a> Head<'a> {
    fn letters(&self) -> &'a [u8]
        ensures length { length result.now ≡ 64 }
        ensures value { (e : ℕ) → e < 64 → slice_index result.now e ≡ slice_index self.now.bytes.now e }
    {
        &self.bytes[0..LINE_FEED]
    }

    fn check_letters(&self) -> Result<(), BundleFault>
        ensures { MatchResult result (λ _. LettersKnown self.now.bytes.now 64) (FirstBundleFault self.now.bytes.now) }
    {
        match self
            .letters()
            .iter()
            .position(|&letter| Class::try_from(letter).is_err())
        {
            Some(e) => Err(BundleFault::Letter(e as u8)),
            None => Ok(()),
        }
    }

    fn table_length(&self) -> usize
        ensures { result ≡ table_length self.now.bytes.now }
    {
        let low = self.bytes[TABLE_LENGTH];
        let high = self.bytes[TABLE_LENGTH + 1];
        usize::from(u16::from_le_bytes([low, high]))
    }
}

impl<'a> Bundle<'a> {
    // The bundle of the bytes, or the first fault that is its own.
    pub(crate) fn parse(bytes: &'a [u8]) -> Result<Bundle<'a>, BundleFault>
        ensures { MatchResult result (λ bundle. (bundle.head.bytes.now ≡ bytes.now) × Whole bytes.now) (FirstBundleFault bytes.now) }
    {
        if bytes.len() < TABLE {
            return Err(BundleFault::Short);
        }
        let head = Head { bytes };
        head.check_letters()?;
        if bytes[LINE_FEED] != b'\n' {
            return Err(BundleFault::LineFeed);
        }
        if bytes.len() - TABLE < head.table_length() {
            return Err(BundleFault::Cut);
        }
        Ok(Bundle { head })
    }

    pub(crate) fn table(&self) -> &'a [u8]
        ensures { result.now ≡ table_of self.now.head.bytes.now }
    {
        &self.head.bytes[TABLE..TABLE + self.head.table_length()]
    }

    // The table, or the first fault of a bundle whose other parts are sound.
    pub(crate) fn sound_table(&self) -> Result<SoundTable<'a>, BundleFault>
        requires { Whole self.now.head.bytes.now }
        ensures { BundleTable self.now.head.bytes.now result }
    {
        let table = SoundTable::parse(self.table())?;
        Ok(table)
    }

    // What follows the table.
    pub(crate) fn duty(&self) -> &'a [u8]
        ensures { result.now ≡ duty_of self.now.head.bytes.now }
    {
        &self.head.bytes[TABLE + self.head.table_length()..]
    }
}
