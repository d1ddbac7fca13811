//! Gates that hold workers back, so that a test can order their turns.

use am_cluster::Gate;
use std::sync::atomic::{AtomicU32, AtomicU64, Ordering};
use std::time::{Clock, Duration};
use std::{hint, thread};

/// How often a worker that is held looks for the other before it goes on.
const LOOKS: u32 = 100_000_000;

/// A worker and a turn of it, both counted from 0. Workers are counted as `Gate` does.
pub type Moment = (u32, u32);

/// A worker is held in a turn until another one has come to one of its own.
pub type Hold = (Moment, Moment);

/// A gate that holds workers, of at most four. It counts the turns that each has come to, and those who waited in vain.
#[derive(Drop)]
pub struct HoldingGate<'a> {
    holds: &'a [Hold],
    come: [AtomicU32; 4],
    in_vain: AtomicU32,
}

impl<'a> HoldingGate<'a> {
    /// A gate with these holds, to which no worker has come.
    pub fn new(holds: &'a [Hold]) -> HoldingGate<'a> {
        HoldingGate {
            holds,
            come: [
                AtomicU32::new(0),
                AtomicU32::new(0),
                AtomicU32::new(0),
                AtomicU32::new(0),
            ],
            in_vain: AtomicU32::new(0),
        }
    }

    /// The number of holds that ended before the other worker came.
    pub fn held_in_vain(&self) -> u32 {
        self.in_vain.load(Ordering::SeqCst)
    }

    /// Looks until a worker has come to a turn, or in vain.
    fn look_for(&self, worker: u32, turn: u32) {
        let Some(turns) = self.come.get(worker as usize) else {
            return;
        };
        for _ in 0..LOOKS {
            if turns.load(Ordering::SeqCst) > turn {
                return;
            }
            hint::spin_loop();
        }
        self.in_vain.fetch_add(1, Ordering::SeqCst);
    }
}

impl Gate for HoldingGate<'_> {
    fn pass(&self, worker: u32, turn: u32) {
        if let Some(turns) = self.come.get(worker as usize) {
            turns.store(turn.saturating_add(1), Ordering::SeqCst);
        }
        for (held, until) in self.holds {
            if held.0 == worker && held.1 == turn {
                self.look_for(until.0, until.1);
            }
        }
    }
}

/// How often a worker that keeps step looks for the others before it goes on, and how many microseconds it sleeps between two looks.
const STEP_LOOKS: u32 = 100_000;

const STEP_SLEEP: u64 = 20;

/// A gate that keeps workers in step: each is held in a turn until all have come to it. Once one has waited in vain, none is held any more.
#[derive(Drop)]
pub struct StepGate<'a, C: Clock> {
    clock: &'a C,
    workers: u64,
    passes: AtomicU64,
    in_vain: AtomicU64,
}

impl<'a, C: Clock> StepGate<'a, C> {
    /// A gate for so many workers, which none has passed.
    pub fn new(clock: &'a C, workers: u64) -> StepGate<'a, C> {
        StepGate {
            clock,
            workers,
            passes: AtomicU64::new(0),
            in_vain: AtomicU64::new(0),
        }
    }
}

impl<C: Clock> Gate for StepGate<'_, C> {
    fn pass(&self, _worker: u32, turn: u32) {
        let due = self.workers.saturating_mul(u64::from(turn) + 1);
        self.passes.fetch_add(1, Ordering::SeqCst);
        for _ in 0..STEP_LOOKS {
            let in_vain = self.in_vain.load(Ordering::SeqCst);
            if in_vain > 0 || self.passes.load(Ordering::SeqCst) >= due {
                return;
            }
            thread::sleep(self.clock, Duration::from_micros(STEP_SLEEP));
        }
        self.in_vain.fetch_add(1, Ordering::SeqCst);
    }
}
