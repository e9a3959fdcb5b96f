use crate::bell::Bell;
use std::sync::Wait;
use std::sync::atomic::{AtomicU64, Ordering};

/// How long the sleeps are in which one looks for calm, in microseconds. With the last one patience ends.
const PAUSES: [u64; 5] = [500, 1000, 2000, 4000, 8000];

/// Where threads wait that let others go first, until a whole sleep passes in which none of these came. No clause says
/// how long a wait is.
#[derive(Drop)]
pub struct Calm {
    came: AtomicU64,
    // How many had come as the last sleep began in which none came.
    calm_at: AtomicU64,
    over: Bell,
}

impl Calm {
    /// Nobody came yet, and nobody has looked.
    pub fn new() -> Calm {
        Calm {
            came: AtomicU64::new(1),
            calm_at: AtomicU64::new(0),
            over: Bell::new(),
        }
    }

    /// One has come that goes first.
    pub fn disturb(&self) {
        self.came.fetch_add(1, Ordering::SeqCst);
    }

    /// None comes any more: who waits is woken, and nobody waits from now on.
    pub fn end(&self) {
        self.over.ring();
    }

    /// Waits until it is calm: not at all where nobody has come since that was found last, and 15.5 milliseconds at most.
    pub fn wait<W: Wait>(&self, rt: &W) {
        for pause in PAUSES {
            if self.look(rt, pause) {
                return;
            }
        }
    }

    // Whether it is calm now, or after a sleep of so many microseconds in which nobody came.
    fn look<W: Wait>(&self, rt: &W, pause: u64) -> bool {
        let came = self.came.load(Ordering::SeqCst);
        if self.calm_at.load(Ordering::SeqCst) == came || self.over.heard() > 0 {
            return true;
        }
        self.over.wait(rt, 0, pause);
        let calm = self.came.load(Ordering::SeqCst) == came;
        if calm {
            self.calm_at.store(came, Ordering::SeqCst);
        }
        calm
    }
}
