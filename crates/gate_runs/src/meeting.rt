//! A gate at which two actors wait for each other.

use acpi_regs::{Actor, Gate};
use std::sync::atomic::{AtomicBool, Ordering};

/// How often an actor looks before it gives up.
const LIMIT: u32 = 50_000_000;

/// A gate at which the first firmware and the first worker wait for each other, each at its first pass; or at which
/// nobody waits. A run on one thread, also one in rounds, reaches the limit in the first of the two passes.
#[derive(Drop)]
pub struct Meeting {
    waits: bool,
    firmware: AtomicBool,
    worker: AtomicBool,
    gave_up: AtomicBool,
}

impl Gate for Meeting {
    fn pass(&self, actor: Actor) {
        match actor {
            Actor::Firmware(0) => self.meet(&self.firmware, &self.worker),
            Actor::Worker(0) => self.meet(&self.worker, &self.firmware),
            _ => {}
        }
    }
}

impl Meeting {
    /// A gate at which the two wait for each other.
    pub fn of_two() -> Meeting {
        Meeting::new(true)
    }

    /// A gate at which nobody waits.
    pub fn of_nobody() -> Meeting {
        Meeting::new(false)
    }

    fn new(waits: bool) -> Meeting {
        Meeting {
            waits,
            firmware: AtomicBool::new(false),
            worker: AtomicBool::new(false),
            gave_up: AtomicBool::new(false),
        }
    }

    /// What is printed of a gate at which the two waited.
    pub fn report(&self) -> Option<&'static str> {
        let firmware = self.firmware.load(Ordering::SeqCst);
        let worker = self.worker.load(Ordering::SeqCst);
        if !self.waits {
            None
        } else if self.gave_up.load(Ordering::SeqCst) {
            Some("the limit was reached")
        } else if firmware && worker {
            Some("both passed, no limit was reached")
        } else {
            Some("one did not pass")
        }
    }

    /// Raises the one flag, and at the first pass waits until the other is raised.
    fn meet(&self, own: &AtomicBool, other: &AtomicBool) {
        if self.waits && !own.swap(true, Ordering::SeqCst) && !is_raised(other) {
            self.gave_up.store(true, Ordering::SeqCst);
        }
    }
}

/// Whether a flag is raised before the limit.
fn is_raised(flag: &AtomicBool) -> bool {
    for _ in 0..LIMIT {
        if flag.load(Ordering::SeqCst) {
            return true;
        }
    }
    false
}
