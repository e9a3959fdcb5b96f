use crate::bell::Bell;
use std::array;
use std::sync::Wait;

/// How many bells there are.
const BELLS: usize = 16;

/// How long a sleep is at most, in microseconds, whether the bell rings or not.
const LONGEST: u64 = 1000;

/// A row of bells for threads that wait for numbers: each number has its bell, so that a ring wakes who waits for that
/// number, and not all. Numbers that are 16 apart share a bell.
#[derive(Drop)]
pub struct Bells {
    bells: [Bell; BELLS],
}

impl Bells {
    /// Nobody sleeps, and none was rung.
    pub fn new() -> Bells {
        Bells {
            bells: array::from_fn(|_| Bell::new()),
        }
    }

    // The bell of a number.
    fn bell(&self, number: u64) -> &Bell {
        &self.bells[(number % BELLS as u64) as usize]
    }

    /// How often the bell of a number was rung, modulo 2^64. To be asked before the look for what is waited for, and
    /// handed to `wait`.
    pub fn heard(&self, number: u64) -> u64 {
        self.bell(number).heard()
    }

    /// Sleeps until the bell of the number is rung, for a millisecond at most; not at all where it was rung since
    /// `heard`.
    pub fn wait<W: Wait>(&self, rt: &W, number: u64, heard: u64) {
        self.bell(number).wait(rt, heard, LONGEST);
    }

    /// Wakes those that sleep for the number.
    pub fn ring(&self, number: u64) {
        self.bell(number).ring();
    }
}
