ghost use Rattle.std.specs.Prelude.{◌≡◌, ℕ, ◌≤◌, ◌<◌, length, [], None, IfOk};
ghost use Rattle.cyp_cancel.specs.Words.{Word, is_run, IsSerial};
ghost use Rattle.cyp_cancel.specs.Views.{Maker, with_found, after_stopping, fresh_table};
ghost use Rattle.cyp_cancel.specs.Kinds.{Begin as begin, Poll as polls, End as end, StopOf};
ghost use Rattle.cyp_cancel.specs.Rule.{KeepsRule};
ghost use Rattle.cyp_cancel.specs.Kept.{Kept};
ghost use Rattle.cyp_cancel.specs.Seats.{AreNew};
ghost use Rattle.cyp_cancel.specs.Answers.{Answers};

use crate::known::Known;
use crate::law::{Begin, End, Law, Look, Make, Tell};
use crate::seen::{Poll, Seen};
use atomic_table::{Seat, Table};
use cyp_term::{List, NoMemory};
use std::alloc::Global;
use std::marker::Model;

/// The words of workers, one each, in a table that keeps the rule of the words between any two
/// steps. Contracts see them as the name of their table and the number of workers.
#[derive(Drop)]
pub struct Words {
    table: Table<(), Known, usize, Law, Global>,
}

impl Model for Words {
    ghost use Rattle.cyp_cancel.specs.Seats.{WordsValue, IsWords, words_code};

    ghost Value = { WordsValue };

    ghost coded = { words_code };

    ghost view = { λ w. record { table = w.table.shared.table_id; workers = w.table.shared.table_id.words } };

    ghost invariant = { λ w. IsWords w.table.shared.table_id w.table.shared.key };
}

/// A worker's seat at its word. Contracts see it as the name of its table and the worker's view.
/// It fits the words whose table that is.
#[derive(Drop)]
pub struct WorkerSeat {
    seat: Seat<(), Known>,
    number: u32,
    serial: u64,
}

impl Model for WorkerSeat {
    ghost use Rattle.cyp_cancel.specs.Seats.{SeatValue, IsSeat, seat_code, worker_of};

    ghost Value = { SeatValue };

    ghost coded = { seat_code };

    ghost view = { λ s. record { table = s.seat.table_id; view = worker_of s.seat.me.0 } };

    ghost invariant = { λ s. IsSeat s.seat.table_id s.seat.me s.number s.serial };
}

/// Words, and the seats of their workers in the order of their numbers.
#[derive(Drop)]
pub struct CancelKit {
    pub words: Words,
    pub workers: List<WorkerSeat>,
}

// A seat for each worker, split off from the maker's.
fn split_seats(
    alloc: Global,
    table: &Table<(), Known, usize, Law, Global>,
    mut maker: Seat<(), Known>,
    workers: u32,
) -> Result<Vec<WorkerSeat>, NoMemory>
    requires fits { maker.table_id ≡ table.now.shared.table_id }
    requires maker { maker.me ≡ (Maker 0, []) }
    requires words { table.now.shared.table_id.words ≡ workers }
    requires some { 1 ≤ workers }
    requires key { table.now.shared.key ≡ table.now.shared.table_id.words }
    ensures count { IfOk result (λ v. length v.items ≡ workers) }
    ensures seats { IfOk result (λ v. AreNew table.now.shared.table_id v.items) }
{
    let mut seats = Vec::new(alloc);
    for number in 0..workers {
        let seat = table.shared.split_seat::<Make>(&mut maker);
        seats.push(WorkerSeat {
            seat,
            number,
            serial: 0,
        })?;
    }
    Ok(seats)
}

impl Words {
    /// The words of so many workers, all idle, and a seat for each.
    pub fn new(alloc: Global, workers: u32) -> Result<CancelKit, NoMemory>
        requires some { 1 ≤ workers }
        requires few { workers ≤ 32 }
        ensures words { IfOk result (λ k. k.words.workers ≡ workers) }
        ensures count { IfOk result (λ k. length k.workers ≡ workers) }
        ensures seats { IfOk result (λ k. AreNew k.words.table k.workers) }
        ensures rule { KeepsRule (fresh_table workers) }
    {
        let count = workers as usize;
        let idle = Vec::from_elem(alloc, 0u64, count)?;
        let (table, maker) = Table::of_words(alloc, idle.as_slice(), &count)?;
        let seats = split_seats(alloc, &table, maker, workers)?;
        Ok(CancelKit {
            words: Words { table },
            workers: List::from_vec(seats),
        })
    }

    /// How many workers have a word here.
    pub fn workers(&self) -> u32
        ensures { result ≡ self.now.workers }
    {
        self.table.word_count() as u32
    }

    /// The worker starts on the claim of this serial. It is meant for an idle seat.
    pub fn begin(&self, seat: &mut WorkerSeat, serial: u64)
        requires fits { seat.old.table ≡ self.now.table }
        requires serial { IsSerial serial }
        ensures fits { seat.new.table ≡ seat.old.table }
        ensures view { seat.new.view ≡ record seat.old.view { serial = Some serial } }
        ensures rule { (x : Word) × Kept (begin serial) seat.old.view.number x seat.old.view seat.new.view }
    {
        let number = seat.number as usize;
        self.table
            .shared
            .swap::<Begin>(&mut seat.seat, number, 2 * serial);
        seat.serial = serial;
    }

    /// Reads the worker's word, and says whether it tells the worker to stop its claim.
    pub fn poll(&self, seat: &mut WorkerSeat) -> Poll
        requires fits { seat.old.table ≡ self.now.table }
        ensures fits { seat.new.table ≡ seat.old.table }
        ensures word { (x : Word) × Kept polls seat.old.view.number x seat.old.view seat.new.view × (seat.new.view ≡ with_found seat.old.view.number x seat.old.view) × Answers result seat.old.view x }
    {
        let number = seat.number as usize;
        let found = self.table.shared.load::<Look>(&mut seat.seat, number);
        if seat.serial > 0 && found == 2 * seat.serial + 1 {
            Poll::Stop(Seen {
                worker: seat.number,
                serial: seat.serial,
            })
        } else {
            Poll::Run
        }
    }

    /// The worker is done with its claim, and idle. It is meant to follow `begin`.
    pub fn end(&self, seat: &mut WorkerSeat)
        requires fits { seat.old.table ≡ self.now.table }
        ensures fits { seat.new.table ≡ seat.old.table }
        ensures view { seat.new.view ≡ record seat.old.view { serial = None } }
        ensures rule { (x : Word) × Kept end seat.old.view.number x seat.old.view seat.new.view }
    {
        let number = seat.number as usize;
        self.table.shared.swap::<End>(&mut seat.seat, number, 0);
        seat.serial = 0;
    }

    /// Tells a worker to stop the claim of this serial, by any worker's seat, and says whether that
    /// worker's word said that it ran the claim.
    pub fn stop(&self, seat: &mut WorkerSeat, worker: u32, serial: u64) -> bool
        requires fits { seat.old.table ≡ self.now.table }
        requires worker { worker < self.now.workers }
        requires serial { IsSerial serial }
        ensures fits { seat.new.table ≡ seat.old.table }
        ensures word { (x : Word) × Kept (StopOf worker serial) worker x seat.old.view seat.new.view × (seat.new.view ≡ after_stopping worker serial x seat.old.view) × (result ≡ is_run serial x) }
    {
        let found = self.table.shared.compare_exchange::<Tell>(
            &mut seat.seat,
            worker as usize,
            2 * serial,
            2 * serial + 1,
        );
        found == 2 * serial
    }
}
