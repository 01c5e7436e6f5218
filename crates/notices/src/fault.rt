// What can be wrong with a bundle.
ghost use Rattle.std.specs.Prelude.{◌≡◌};
ghost use Rattle.notices.specs.declared.fault.BundleFault.TheVariants.{Table};

use systems::stored_table::fault::TableFault;

#[derive(Clone, Copy, PartialEq, Eq, Debug)]
pub enum BundleFault {
    // Shorter than its fixed part.
    Short,
    // The event's letter is not V, N or C.
    Letter(u8),
    // No line feed stands after the letters.
    LineFeed,
    // The table runs past the end.
    Cut,
    Table(TableFault),
}

// By hand, since a derived `From` promises nothing of its result.
impl From<TableFault> for BundleFault {
    ghost from_gives = { λ f r. r ≡ Table f };

    fn from(f: TableFault) -> BundleFault {
        BundleFault::Table(f)
    }
}
