// Sets of events.
ghost use Rattle.std.specs.Prelude.{◌≡◌, ℕ, false, nat_lt};
ghost use Rattle.unwinding.specs.EventSets.{allows};

use crate::bit_set::BitSet;

// Any of the 64 events, each by its number; an event above 63 is in no set.
pub type EventSet = BitSet<1>;

// Not generic in the number of words: these functions would have to ask of their caller that the
// words are few.
impl EventSet {
    pub fn none() -> EventSet
        ensures { (e : ℕ) → allows result e ≡ false }
    {
        EventSet::filled(0)
    }

    pub fn all() -> EventSet
        ensures { (e : ℕ) → allows result e ≡ nat_lt e 64 }
    {
        EventSet::filled(u64::MAX)
    }
}
