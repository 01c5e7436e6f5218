// What every system answers.
ghost use Rattle.std.specs.Prelude.{◌≡◌};
ghost use Rattle.systems.specs.Machine.{Machine, Lawful};
ghost use Rattle.systems.specs.StoredTable.{RoleNumbered};

// What an event is to a system.
#[derive(Clone, Copy, PartialEq, Eq, Debug)]
pub enum Role {
    // No event of the system: it is possible in no state.
    Absent,
    Input,
    Output,
    Internal,
}

// A byte that numbers no role.
#[derive(Clone, Copy, PartialEq, Eq, Debug)]
pub struct UnknownRole(pub u8);

impl TryFrom<u8> for Role {
    type Error = UnknownRole;

    ghost try_from_gives = { RoleNumbered };

    fn try_from(byte: u8) -> Result<Role, UnknownRole> {
        match byte {
            0 => Ok(Role::Absent),
            1 => Ok(Role::Input),
            2 => Ok(Role::Output),
            3 => Ok(Role::Internal),
            _ => Err(UnknownRole(byte)),
        }
    }
}

// A finite state-event system. Each question has one answer for every state and event asked, is
// never refused and changes nothing. Whoever adds a system shows just the rules of `Lawful`.
pub trait System {
    ghost machine: { Self → Machine };

    // The number of states.
    fn count(&self) -> u16
        ensures { result ≡ (machine self.now).count };

    // The state in which every run begins.
    fn first(&self) -> u8
        ensures { result ≡ (machine self.now).first };

    fn role(&self, event: u8) -> Role
        ensures { result ≡ (machine self.now).role event };

    // Where `event` leads from `state`; `None` where it is not possible.
    fn step(&self, state: u8, event: u8) -> Option<u8>
        ensures { result ≡ (machine self.now).step state event };

    ghost lawful: { (s : Self) → Lawful (machine s) };
}
