ghost use Rattle.std.specs.Prelude.{◌≡◌, ◌<◌, IfOk, OnOk};
ghost use Rattle.cyp_cancel.specs.Seats.{AreNew};

use cyp_cancel::{CancelKit, Poll, Polling, Seen, Words, WorkerSeat};
use cyp_space::Stop;
use cyp_term::List;
use std::test::Fail;
use std::thread::join;

/// The seat of the last worker that is left.
fn next_seat(words: &Words, workers: &mut List<WorkerSeat>) -> Result<WorkerSeat, Fail>
    requires { AreNew words.now.table workers.old }
    ensures fits { IfOk result (λ s. s.table ≡ words.now.table) }
    ensures rest { OnOk result (AreNew words.now.table workers.new) }
{
    match workers.pop() {
        Some(seat) => Ok(seat),
        None => Err(Fail::new("no worker is left")),
    }
}

#[test]
fn only_the_claim_that_runs_is_stopped(rt: HostRuntime) -> Result<(), Fail> {
    let CancelKit { words, mut workers } = Words::new(rt.alloc(), 1)?;
    let mut seat = next_seat(&words, &mut workers)?;
    assert!(rt; !words.stop(&mut seat, 0, 1));
    words.begin(&mut seat, 1);
    assert!(rt; !words.stop(&mut seat, 0, 2));
    assert_eq!(rt; words.poll(&mut seat), Poll::Run);
    assert!(rt; words.stop(&mut seat, 0, 1));
    assert!(rt; !words.stop(&mut seat, 0, 1));
    let stop = Poll::Stop(Seen {
        worker: 0,
        serial: 1,
    });
    assert_eq!(rt; words.poll(&mut seat), stop);
    words.end(&mut seat);
    assert_eq!(rt; words.poll(&mut seat), Poll::Run);
    assert!(rt; !words.stop(&mut seat, 0, 1));
    Ok(())
}

#[test]
fn last_worker_stops_the_greatest_serial(rt: HostRuntime) -> Result<(), Fail> {
    let CancelKit { words, mut workers } = Words::new(rt.alloc(), 32)?;
    assert_eq!(rt; words.workers(), 32);
    assert_eq!(rt; workers.len(), 32);
    let mut last = next_seat(&words, &mut workers)?;
    let mut other = next_seat(&words, &mut workers)?;
    words.begin(&mut last, 1 << 62);
    assert!(rt; !words.stop(&mut other, 30, 1 << 62));
    assert!(rt; words.stop(&mut other, 31, 1 << 62));
    let stop = Poll::Stop(Seen {
        worker: 31,
        serial: 1 << 62,
    });
    assert_eq!(rt; words.poll(&mut last), stop);
    assert_eq!(rt; words.poll(&mut other), Poll::Run);
    Ok(())
}

#[test]
fn polling_hears_a_stop_and_goes_on_hearing_it(rt: HostRuntime) -> Result<(), Fail> {
    let CancelKit { words, mut workers } = Words::new(rt.alloc(), 2)?;
    let mut mine = next_seat(&words, &mut workers)?;
    let mut other = next_seat(&words, &mut workers)?;
    words.begin(&mut mine, 5);
    let mut polling = Polling::new(&words, &mut mine);
    assert!(rt; !polling.poll());
    assert!(rt; words.stop(&mut other, 1, 5));
    assert!(rt; polling.poll());
    assert!(rt; polling.poll());
    words.end(&mut mine);
    assert_eq!(rt; words.poll(&mut mine), Poll::Run);
    Ok(())
}

/// Tells the worker to stop its claim, and gives the seat back.
fn tell(words: &Words, mut seat: WorkerSeat) -> (bool, WorkerSeat)
    requires fits { seat.table ≡ words.now.table }
    requires worker { 1 < words.now.workers }
    ensures { result.1.table ≡ words.now.table }
{
    let told = words.stop(&mut seat, 1, 3);
    (told, seat)
}

/// Polls the word, and gives the seat back.
fn ask(words: &Words, mut seat: WorkerSeat) -> WorkerSeat
    requires { seat.table ≡ words.now.table }
    ensures { result.table ≡ words.now.table }
{
    let _ = words.poll(&mut seat);
    seat
}

#[test]
fn seats_go_to_threads_and_words_are_shared(rt: HostRuntime) -> Result<(), Fail> {
    let CancelKit { words, mut workers } = Words::new(rt.alloc(), 2)?;
    let mut mine = next_seat(&words, &mut workers)?;
    let other = next_seat(&words, &mut workers)?;
    words.begin(&mut mine, 3);
    let ((told, mut other), mut mine) = join(
        &rt,
        || -> (bool, WorkerSeat)
            requires { (other.table ≡ words.table) × (1 < words.workers) }
            ensures { result.1.table ≡ words.table }
        { tell(&words, other) },
        || -> WorkerSeat
            requires { mine.table ≡ words.table }
            ensures { result.table ≡ words.table }
        { ask(&words, mine) },
    );
    assert!(rt; told);
    assert_eq!(rt; words.poll(&mut other), Poll::Run);
    let stop = Poll::Stop(Seen {
        worker: 1,
        serial: 3,
    });
    assert_eq!(rt; words.poll(&mut mine), stop);
    Ok(())
}
