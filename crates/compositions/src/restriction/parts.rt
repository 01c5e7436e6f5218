// What a restriction holds.
use unwinding::event_set::EventSet;

#[derive(Drop)]
pub struct Restriction<S> {
    pub(crate) below: S,
    // The events that are shut: possible in no state.
    pub(crate) shut: EventSet,
}
