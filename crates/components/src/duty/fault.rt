// What can be wrong with duty bytes.

#[derive(Clone, Copy, PartialEq, Eq, Debug)]
pub enum DutyFault {
    // Not exactly 65 bytes.
    Length,
    // No user, or more than 5.
    Users,
    // The event's entry names no user.
    Entry(u8),
}
