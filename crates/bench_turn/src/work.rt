//! The threads and their turns.
ghost use Rattle.std.specs.Prelude.{◌≡◌, ◌+◌, ◌<◌, ◌≤◌, All, vec_len, vec_capacity};
ghost use Rattle.and_turn.specs.Seats.{IsFree, SitsAt, made_of, number_of, out_of};

use crate::tally::Tally;
use and_turn::{NoMemory, Seat, TurnLock};
use std::alloc::Global;
use std::sync::Wait;
use std::thread;
use std::thread::Threads;

// What a thread has.
struct Job {
    seat: Seat<Tally>,
    turns: u32,
}

// All turns of one seat.
fn take_turns<R: Wait>(rt: &R, lock: &TurnLock<Tally>, job: &mut Job)
    requires { SitsAt lock.now job.old.seat × IsFree job.old.seat }
    ensures { SitsAt lock.now job.new.seat × IsFree job.new.seat }
{
    for _ in 0..job.turns {
        let mut tally = lock.enter(rt, &mut job.seat);
        tally.turns = tally.turns.wrapping_add(1);
        lock.leave(&mut job.seat, tally);
    }
}

// A job for each thread, with a seat that the first one makes.
fn split_all(
    lock: &TurnLock<Tally>,
    first: &mut Seat<Tally>,
    jobs: &mut Vec<Job>,
    threads: u32,
    turns: u32,
)
    requires first { SitsAt lock.now first.old × IsFree first.old × (number_of first.old ≡ 0) × (out_of first.old ≡ 0) × (made_of first.old ≡ 1) }
    requires room { (vec_len jobs.old ≡ 0) × (threads ≤ vec_capacity jobs.old) × (threads ≤ 64) }
    ensures first { SitsAt lock.now first.new × IsFree first.new × (number_of first.new ≡ 0) × (out_of first.new ≡ vec_len jobs.new) }
    ensures jobs { All (λ j. SitsAt lock.now j.seat × IsFree j.seat) jobs.new.items }
{
    for _ in 0..threads {
        let seat = lock.split(first);
        jobs.push_reserved(Job { seat, turns });
    }
}

// The first seat joins each of them.
fn join_all(lock: &TurnLock<Tally>, first: &mut Seat<Tally>, mut jobs: Vec<Job>)
    requires first { SitsAt lock.now first.old × IsFree first.old × (number_of first.old ≡ 0) × (out_of first.old ≡ vec_len jobs) }
    requires jobs { All (λ j. SitsAt lock.now j.seat × IsFree j.seat) jobs.items }
    ensures { SitsAt lock.now first.new × IsFree first.new × (number_of first.new ≡ 0) × (out_of first.new ≡ 0) }
{
    while let Some(job) = jobs.pop() {
        let Job { seat, turns: _ } = job;
        lock.join(first, seat);
    }
    jobs.destroy_empty();
}

/// At least one and at most 64 threads take that many turns each. The answer is what the value counted.
pub(crate) fn run<R: Threads + Wait + Sync>(
    rt: &R,
    alloc: Global,
    threads: u32,
    turns: u32,
) -> Result<u64, NoMemory> {
    let threads = threads.clamp(1, 64);
    let Ok(mut jobs) = Vec::with_capacity(alloc, threads as usize) else {
        return Err(NoMemory);
    };
    let (lock, mut first) = match TurnLock::make(alloc, Tally { turns: 0 }) {
        Ok(made) => made,
        Err(failed) => {
            jobs.destroy_empty();
            return Err(failed);
        }
    };
    split_all(&lock, &mut first, &mut jobs, threads, turns);
    let count = threads as usize;
    thread::for_each_mut(
        rt,
        jobs.as_mut_slice(),
        count,
        &|_, job| take_turns(rt, &lock, job),
    );
    join_all(&lock, &mut first, jobs);
    Ok(lock.close(first).turns)
}
