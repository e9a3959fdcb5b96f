use crossbeam_utils::Backoff;
use std::sync::Wait;
use std::sync::atomic::{AtomicU64, Ordering};
use xl_wait::Bells;

/// How many calls a shift has at most.
const CALLS: u32 = 16;

/// How many calls before its end the next thread is woken.
const EARLY: u32 = 4;

/// The number of nobody.
const NONE: u64 = u64::MAX;

/// Where threads come that have many calls to make at hand, so that each makes some of them in a row, and the others
/// sleep meanwhile. Who waits gets on in the order of coming. No clause says how long a wait is.
#[derive(Drop)]
pub struct Shifts {
    drawn: AtomicU64,
    // The number that has the shift, or will have it as soon as it is drawn.
    on: AtomicU64,
    bells: Bells,
}

/// The shift of one thread.
#[derive(Drop)]
pub struct Shift {
    number: u64,
    left: u32,
}

impl Shift {
    /// It has not begun.
    pub fn new() -> Shift {
        Shift {
            number: NONE,
            left: 0,
        }
    }
}

impl Shifts {
    /// Nobody has come yet.
    pub fn new() -> Shifts {
        Shifts {
            drawn: AtomicU64::new(0),
            on: AtomicU64::new(0),
            bells: Bells::new(),
        }
    }

    /// To be called before each call of a thread that has more of them at hand. It waits where the shift is another's.
    pub fn come<W: Wait>(&self, rt: &W, shift: &mut Shift) {
        if shift.left > 0 && self.on.load(Ordering::SeqCst) == shift.number {
            shift.left -= 1;
            if shift.left == EARLY {
                self.bells.ring(shift.number.wrapping_add(1));
            }
        } else {
            self.go(shift);
            shift.number = self.drawn.fetch_add(1, Ordering::SeqCst);
            self.wait(rt, shift.number);
            shift.left = CALLS - 1;
        }
    }

    /// To be called before what takes longer than a call, and at the end. It ends the thread's shift, if it has one.
    pub fn go(&self, shift: &mut Shift) {
        self.advance(shift.number);
        shift.number = NONE;
        shift.left = 0;
    }

    // Ends the shift of a number, if it is on.
    fn advance(&self, number: u64) {
        let next = number.wrapping_add(1);
        if self
            .on
            .compare_exchange(number, next, Ordering::SeqCst, Ordering::SeqCst)
            .is_ok()
        {
            self.bells.ring(next);
        }
    }

    // Waits until the shift of a number begins. A shift that lasts for a whole sleep of who is next is ended.
    fn wait<W: Wait>(&self, rt: &W, number: u64) {
        let backoff = Backoff::new();
        for _ in rt.forever() {
            let heard = self.bells.heard(number);
            let on = self.on.load(Ordering::SeqCst);
            if on >= number {
                return;
            }
            if backoff.is_completed() {
                self.bells.wait(rt, number, heard);
                if on.wrapping_add(1) == number && self.bells.heard(number) == heard {
                    self.advance(on);
                }
                backoff.reset();
            } else {
                backoff.snooze();
            }
        }
        unreachable!()
    }
}
