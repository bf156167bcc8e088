ghost use Rattle.std.specs.Prelude.{ℕ, ◌≤◌, IsTrue};
ghost use Rattle.cyp_space.specs.Stops.{Rose};

/// The stop was heard.
#[derive(Clone, Copy, Debug, PartialEq, Eq, Hash)]
pub struct Stopped;

/// A wish to stop, that is asked for now and then. Where it is heard, a count of its own rises.
pub trait Stop {
    ghost told: { Self → ℕ };

    fn poll(&mut self) -> bool
        ensures never_falls { told self.old ≤ told self.new }
        ensures cause { IsTrue result → Rose (told self.old) (told self.new) };
}

/// It never stops.
#[derive(Clone, Copy, Debug)]
pub struct Never;

impl Stop for Never {
    ghost told = { λ _. 0 };

    fn poll(&mut self) -> bool {
        false
    }
}
