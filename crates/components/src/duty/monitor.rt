// What a duty monitor holds.
ghost use Rattle.std.specs.Prelude.{◌≤◌, length};
ghost use Rattle.components.specs.Acts.{ActsKnown};

use crate::duty::act::Act;

// A state keeps for each user, as a base-3 digit, whether and how the user has acted.
#[derive(Clone, Copy)]
pub struct DutyMonitor {
    pub(crate) users: u8,
    // What each event is; `None` where it is no event of the monitor.
    pub(crate) acts: [Option<Act>; 64],
    ghost few: { users ≤ 5 },
    ghost long: { length acts ≤ 64 },
    ghost known: { ActsKnown users acts },
}
