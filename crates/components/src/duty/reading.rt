// Duty bytes read as a monitor.
ghost use Rattle.std.specs.Prelude.{◌≡◌, ◌≢◌, length, IfOk, MatchOption, MatchResult, OnOk};
ghost use Rattle.systems.specs.Machine.{bare};
ghost use Rattle.components.specs.Duties.{Monitors, RunsSeparated};
ghost use Rattle.components.specs.Reading.{FirstAbove, Parts, Split};
ghost use Rattle.components.specs.DutyFaults.{FirstDutyFault, Sound};
ghost use Rattle.components.specs.Monitors.{monitor_machine};

use crate::duty::act::Act;
use crate::duty::fault::DutyFault;
use crate::duty::monitor::DutyMonitor;

const MOST_USERS: u8 = 5;

// The place of the first entry above the highest allowed.
fn first_above(entries: &[u8], highest: u8) -> Option<usize>
    ensures { FirstAbove highest entries.now result }
{
    entries.iter().position(|&entry| entry > highest)
}

// The number of users and the entries of the events; `None` where the bytes are not 65.
fn split(bytes: &[u8]) -> Option<(u8, &[u8; 64])>
    ensures { MatchOption result (length bytes.now ≢ 65) (λ p. Split bytes.now p.0 p.1.now) }
{
    let (users, entries) = bytes.split_first()?;
    let entries = <&[u8; 64]>::try_from(entries).ok()?;
    Some((*users, entries))
}

// The parts of the bytes, or the bytes' first fault.
pub(crate) fn parts(bytes: &[u8]) -> Result<(u8, &[u8; 64]), DutyFault>
    ensures value { MatchResult result (λ p. Parts bytes.now p.0 p.1.now) (FirstDutyFault bytes.now) }
    ensures sound { OnOk result (Sound bytes.now) }
{
    let (users, entries) = split(bytes).ok_or(DutyFault::Length)?;
    if users == 0 || users > MOST_USERS {
        return Err(DutyFault::Users);
    }
    match first_above(entries, 2 * users) {
        Some(event) => Err(DutyFault::Entry(event as u8)),
        None => Ok((users, entries)),
    }
}

impl DutyMonitor {
    // The monitor that the bytes mean, or their first fault.
    pub(crate) fn read(bytes: &[u8]) -> Result<DutyMonitor, DutyFault>
        ensures checked { MatchResult result (λ _. Sound bytes.now) (FirstDutyFault bytes.now) }
        ensures means { IfOk result (λ d. Monitors bytes.now (monitor_machine d)) }
        ensures runs { IfOk result (λ d. RunsSeparated bytes.now (monitor_machine d)) }
    {
        let (users, entries) = parts(bytes)?;
        let acts = entries.map(Act::of_entry);
        Ok(DutyMonitor { users, acts })
    }

    // A monitor without users is the bare system.
    pub(crate) fn bare() -> DutyMonitor
        ensures { monitor_machine result ≡ bare }
    {
        DutyMonitor {
            users: 0,
            acts: [None; 64],
        }
    }
}
