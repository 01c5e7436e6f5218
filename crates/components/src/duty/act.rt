// What an event is: an act of a user.
ghost use Rattle.std.specs.Prelude.{◌<◌};

// The two activities that nobody combines.
#[derive(Clone, Copy)]
pub(crate) enum Activity {
    First,
    Second,
}

// Who acts, and in which activity.
#[derive(Clone, Copy)]
pub(crate) struct Act {
    pub(crate) user: u8,
    pub(crate) activity: Activity,
    ghost known: { user < 5 },
}
