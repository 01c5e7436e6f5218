// A system taken up with some events shut. Nothing is refused.
ghost use Rattle.std.specs.Prelude.{◌≡◌};
ghost use Rattle.unwinding.specs.EventSets.{allows};
ghost use Rattle.compositions.specs.Restrictions.{restricted, RunsUnshut};

use crate::restriction::parts::Restriction;
use systems::system::System;
use unwinding::event_set::EventSet;

// The system below with the events of the set shut; an event above 63 is in no set.
#[tactic(auto, using(crate::proofs::RestrictedRuns::leads_below, crate::proofs::RestrictedRuns::leads_above))]
pub fn take_up<S: System>(below: S, shut: EventSet) -> Restriction<S>
    ensures taken_up { ⟦<Restriction<S> as System>⟧.machine result
        ≡ restricted (allows shut) (S.System.machine below) }
    ensures runs { RunsUnshut (allows shut) (S.System.machine below)
        (⟦<Restriction<S> as System>⟧.machine result) }
{
    Restriction { below, shut }
}
