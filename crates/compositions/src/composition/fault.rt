// What can keep two systems from being composed.

#[derive(Clone, Copy, PartialEq, Eq, Debug)]
pub enum CompositionFault {
    // More than 256 states.
    States,
    // The event is in both parts, and not an input of one and an output of the other.
    Shared(u8),
}
