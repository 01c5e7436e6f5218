// Acts by their entries, and where they lead.
ghost use Rattle.std.specs.Prelude.{◌≡◌, ◌+◌, ◌*◌, ◌^◌, ◌<◌, ◌≤◌};
ghost use Rattle.components.specs.Acts.{activity_number, ActNamed};
ghost use Rattle.components.specs.Monitors.{marked};

use crate::duty::act::{Act, Activity};

// The entry of user 4 in the second activity.
const HIGHEST_ENTRY: u8 = 10;

// The number of states of so many users, and the weight of the digit of the user of that number.
pub(crate) fn power_of_3(exponent: u8) -> u8
    requires { exponent ≤ 5 }
    ensures value { result ≡ 3 ^ exponent }
    ensures least { 1 ≤ result }
    ensures most { result ≤ 243 }
{
    // Not `pow`, whose loop would run whenever a monitor is asked for its count or a step.
    match exponent {
        0 => 1,
        1 => 3,
        2 => 9,
        3 => 27,
        4 => 81,
        _ => 243,
    }
}

impl Activity {
    // The digit of a user who has acted in it; 0 is the digit of a user who has not acted.
    fn mark(self) -> u8
        ensures { result ≡ 1 + activity_number self }
    {
        match self {
            Activity::First => 1,
            Activity::Second => 2,
        }
    }
}

impl Act {
    // The act that an entry names: 1 + 2u + x names that of user u in activity x.
    pub(crate) fn of_entry(entry: u8) -> Option<Act>
        ensures { ActNamed entry result }
    {
        match entry {
            1..=HIGHEST_ENTRY => Some(Act {
                user: (entry - 1) / 2,
                activity: match (entry - 1) % 2 {
                    0 => Activity::First,
                    _ => Activity::Second,
                },
            }),
            _ => None,
        }
    }

    // Where the act leads from `state`; `None` where its user has acted in the other activity.
    #[tactic(auto, using(crate::specs::DutyMachines::room, crate::specs::DutyMachines::two))]
    pub(crate) fn step_from(self, state: u8) -> Option<u8>
        requires { state < 243 }
        ensures { result ≡ marked state self.user (activity_number self.activity) }
    {
        let weight = power_of_3(self.user);
        let mark = self.activity.mark();
        match state / weight % 3 {
            0 => Some(state + mark * weight),
            digit if digit == mark => Some(state),
            _ => None,
        }
    }
}
