//! The lock at work: one turn each, and many turns of eight threads.
ghost use Rattle.std.specs.Prelude.{◌≡◌, ◌+◌, ◌^◌, ◌<◌, ◌≤◌, [], ◌∷◌, ◌++◌, All, IfOk, length, MatchBool, vec_len, vec_capacity};
ghost use Rattle.and_turn.specs.Seats.{IsFree, SitsAt, made_of, number_of, out_of};

use and_turn::{Seat, Tale, TurnLock};
use std::alloc::{AllocError, Global};
use std::sync::Wait;
use std::test::Fail;
use std::thread;

/// A line: who wrote it, and in which of its turns.
#[derive(Debug, Clone, Copy, PartialEq, Eq)]
struct Note {
    seat: u32,
    turn: u32,
}

/// Notes under a title, which is their root.
#[derive(Drop)]
struct Notes {
    title: u32,
    notes: Vec<Note>,
}

impl Tale for Notes {
    type Line = Note;

    type Root = u32;

    ghost lines = { λ n. n.notes.items };

    ghost seat_of = { λ l. l.seat };

    ghost root = { λ n. n.title };

    fn line_count(&self) -> u64 {
        self.notes.len() as u64
    }
}

impl Notes {
    // Whether there was room for the note.
    fn add(&mut self, note: Note) -> bool
        ensures title { self.new.title ≡ self.old.title }
        ensures added { MatchBool result (self.new.notes.items ≡ self.old.notes.items ++ note ∷ []) (self.new.notes.items ≡ self.old.notes.items) }
        ensures few { length self.new.notes.items < 2 ^ 63 }
    {
        self.notes.push(note).is_ok()
    }
}

// One turn, in which the seat adds a note. Whether there was memory for it.
fn take_turn<R: Wait>(rt: &R, lock: &TurnLock<Notes>, seat: &mut Seat<Notes>, turn: u32) -> bool
    requires { SitsAt lock.now seat.old × IsFree seat.old }
    ensures { SitsAt lock.now seat.new × IsFree seat.new × (number_of seat.new ≡ number_of seat.old) × (out_of seat.new ≡ out_of seat.old) × (made_of seat.new ≡ made_of seat.old) }
{
    let mut notes = lock.enter(rt, seat);
    let added = notes.add(Note {
        seat: seat.number(),
        turn,
    });
    lock.leave(seat, notes);
    added
}

#[test]
fn each_seat_adds_a_line(rt: HostRuntime) -> Result<(), Fail> {
    let blank = Notes {
        title: 7,
        notes: Vec::new(rt.alloc()),
    };
    let (lock, mut first) = TurnLock::make(rt.alloc(), blank).expect(&rt, "memory");
    let mut second = lock.split(&mut first);
    assert!(rt; first.number() == 0 && second.number() == 1);
    assert!(rt; take_turn(&rt, &lock, &mut second, 0));
    assert!(rt; take_turn(&rt, &lock, &mut first, 0));
    lock.join(&mut first, second);
    let closed = lock.close(first);
    assert_eq!(rt; closed.title, 7);
    assert_eq!(rt;
        closed.notes.as_slice(),
        [Note { seat: 1, turn: 0 }, Note { seat: 0, turn: 0 }].as_slice()
    );
    Ok(())
}

/// What a thread has: its seat, and whether each of its notes found memory.
struct Job {
    seat: Seat<Notes>,
    complete: bool,
}

const THREADS: usize = 8;

const TURNS: u32 = 1000;

// A thousand turns of one seat.
fn take_turns<R: Wait>(rt: &R, lock: &TurnLock<Notes>, job: &mut Job)
    requires { SitsAt lock.now job.old.seat × IsFree job.old.seat }
    ensures { SitsAt lock.now job.new.seat × IsFree job.new.seat }
{
    for turn in 0..TURNS {
        job.complete &= take_turn(rt, lock, &mut job.seat, turn);
    }
}

// The first seat makes a seat for each thread.
fn split_all(
    alloc: Global,
    lock: &TurnLock<Notes>,
    first: &mut Seat<Notes>,
) -> Result<Vec<Job>, AllocError>
    requires { SitsAt lock.now first.old × IsFree first.old × (number_of first.old ≡ 0) × (out_of first.old ≡ 0) × (made_of first.old ≡ 1) }
    ensures first { SitsAt lock.now first.new × IsFree first.new × (number_of first.new ≡ 0) × IfOk result (λ v. out_of first.new ≡ vec_len v) }
    ensures jobs { IfOk result (λ v. All (λ j. SitsAt lock.now j.seat × IsFree j.seat) v.items) }
{
    let mut jobs = Vec::with_capacity(alloc, THREADS)?;
    for _ in 0..THREADS {
        let seat = lock.split(first);
        jobs.push_reserved(Job {
            seat,
            complete: true,
        });
    }
    Ok(jobs)
}

// The first seat joins each of them. Whether all their notes found memory.
fn join_all(lock: &TurnLock<Notes>, first: &mut Seat<Notes>, mut jobs: Vec<Job>) -> bool
    requires first { SitsAt lock.now first.old × IsFree first.old × (number_of first.old ≡ 0) × (out_of first.old ≡ vec_len jobs) }
    requires jobs { All (λ j. SitsAt lock.now j.seat × IsFree j.seat) jobs.items }
    ensures { SitsAt lock.now first.new × IsFree first.new × (number_of first.new ≡ 0) × (out_of first.new ≡ 0) }
{
    let mut complete = true;
    while let Some(job) = jobs.pop() {
        let Job {
            seat,
            complete: found,
        } = job;
        complete &= found;
        lock.join(first, seat);
    }
    jobs.destroy_empty();
    complete
}

// Whether each thread's notes are all there, each once and in order.
fn are_in_order(notes: &[Note]) -> bool {
    let mut next = [0u32; THREADS + 1];
    for note in notes {
        let seat = note.seat as usize;
        if seat == 0 || seat > THREADS || next[seat] != note.turn || note.turn >= TURNS {
            return false;
        }
        next[seat] = note.turn + 1;
    }
    next[1..].iter().all(|turn| *turn == TURNS)
}

#[test]
fn eight_threads_take_a_thousand_turns_each(rt: HostRuntime) -> Result<(), Fail> {
    let blank = Notes {
        title: 7,
        notes: Vec::new(rt.alloc()),
    };
    let (lock, mut first) = TurnLock::make(rt.alloc(), blank).expect(&rt, "memory");
    let mut jobs = split_all(rt.alloc(), &lock, &mut first).expect(&rt, "memory");
    thread::for_each_mut(
        &rt,
        jobs.as_mut_slice(),
        THREADS,
        &|_, job| take_turns(&rt, &lock, job),
    );
    let complete = join_all(&lock, &mut first, jobs);
    let closed = lock.close(first);
    assert!(rt; complete);
    assert_eq!(rt; closed.notes.len(), THREADS * TURNS as usize);
    assert!(rt; are_in_order(closed.notes.as_slice()));
    Ok(())
}
