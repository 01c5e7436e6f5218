// Samples that the tests share.
use systems::fault::Fault;

// Three states and the events 0, 1 and 2; state 0 has the chain of records 1 and 2.
#[rattlefmt::skip]
pub(crate) const STEADY: [u8; 100] = [
    // three states, the first is 0, four records
    3, 0, 0, 0, 4, 0,
    // roles: output, internal, input
    2, 3, 1, 0, 0, 0, 0, 0, 0, 0, 0, 0, 0, 0, 0, 0,
    0, 0, 0, 0, 0, 0, 0, 0, 0, 0, 0, 0, 0, 0, 0, 0,
    0, 0, 0, 0, 0, 0, 0, 0, 0, 0, 0, 0, 0, 0, 0, 0,
    0, 0, 0, 0, 0, 0, 0, 0, 0, 0, 0, 0, 0, 0, 0, 0,
    // heads
    1, 0, 3, 0, 4, 0,
    // records: event, target, next
    0, 0, 0, 0, 2, 0,
    2, 0, 1, 0, 0, 0,
    1, 0, 2, 0, 0, 0,
    0, 0, 2, 0, 0, 0,
];

// Two users; events 10 to 13 are acts: user 0 in activity 0 and 1, then user 1.
pub(crate) fn two_users() -> [u8; 65] {
    let mut duty = [0; 65];
    duty[0] = 2;
    duty[11] = 1;
    duty[12] = 2;
    duty[13] = 3;
    duty[14] = 4;
    duty
}

// The number and place of the refusal; zeros, which no refusal has, where a check passes.
pub(crate) fn refusal<F: Fault + Drop>(checked: Result<(), F>) -> (u8, u16) {
    match checked {
        Ok(()) => (0, 0),
        Err(fault) => (fault.number(), fault.place()),
    }
}
