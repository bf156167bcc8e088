ghost use Rattle.std.specs.Prelude.{◌≡◌, ℕ, ◌≤◌, IsTrue};
ghost use Rattle.cyp_space.specs.Stops.{Rose};
ghost use Rattle.cyp_cancel.specs.Words.{Word};
ghost use Rattle.cyp_cancel.specs.Views.{with_found};
ghost use Rattle.cyp_cancel.specs.Kinds.{Poll as polls};
ghost use Rattle.cyp_cancel.specs.Kept.{Kept};
ghost use Rattle.cyp_cancel.specs.Answers.{Hears};

use crate::seen::Poll;
use crate::words::{Words, WorkerSeat};
use cyp_space::Stop;

/// A worker's wish to stop, heard by polls of its word. Its count is that of the polls that heard
/// Stop, and stands still at its type's end.
#[derive(Drop)]
pub struct Polling<'a> {
    words: &'a Words,
    seat: &'a mut WorkerSeat,
    heard: u64,
    ghost fits: { seat.now.table ≡ words.now.table },
}

impl<'a> Polling<'a> {
    /// A wish to stop that nothing was heard of.
    pub fn new(words: &'a Words, seat: &'a mut WorkerSeat) -> Polling<'a>
        requires fits { seat.old.table ≡ words.now.table }
        ensures same_seat { result.seat.ghost_name ≡ seat.entry.ghost_name }
        ensures seat { result.seat.now ≡ seat.old }
        ensures words { result.words.now ≡ words.now }
        ensures heard { result.heard ≡ 0 }
    {
        Polling {
            words,
            seat,
            heard: 0,
        }
    }
}

impl Stop for Polling<'_> {
    ghost told = { λ p. p.heard };

    fn poll(&mut self) -> bool
        ensures never_falls { self.old.heard ≤ self.new.heard }
        ensures cause { IsTrue result → Rose self.old.heard self.new.heard }
        ensures same_seat { self.new.seat.ghost_name ≡ self.old.seat.ghost_name }
        ensures words { self.new.words.now ≡ self.old.words.now }
        ensures fits { self.new.seat.now.table ≡ self.old.seat.now.table }
        ensures word { (x : Word) × Kept polls self.old.seat.now.view.number x self.old.seat.now.view self.new.seat.now.view × (self.new.seat.now.view ≡ with_found self.old.seat.now.view.number x self.old.seat.now.view) × Hears result self.old.seat.now.view x self.old.heard self.new.heard }
    {
        match self.words.poll(self.seat) {
            Poll::Run => false,
            Poll::Stop(_) => {
                self.heard = self.heard.saturating_add(1);
                true
            }
        }
    }
}
