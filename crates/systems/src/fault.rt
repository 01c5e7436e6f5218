// What a check refuses by.
ghost use Rattle.std.specs.Prelude.{◌≡◌, ℕ};

// A fault is told by its number in the list of refusals and by its place.
pub trait Fault {
    ghost number: { Self → ℕ };

    ghost place: { Self → ℕ };

    fn number(&self) -> u8
        ensures { result ≡ number self.now };

    // The event, state or record; 0 where the fault has none, as it is printed.
    fn place(&self) -> u16
        ensures { result ≡ place self.now };
}
