//! Threads that make their calls in shifts.
ghost use Rattle.std.specs.Thread.{IsSync};

use std::process::Abort;
use std::sync::Wait;
use std::sync::atomic::{AtomicU64, Ordering};
use std::test::Fail;
use std::thread::{Threads, join};
use xl_shifts::{Shift, Shifts};

fn make_calls<W: Wait>(rt: &W, shifts: &Shifts, made: &AtomicU64, shift: &mut Shift, calls: u32) {
    for _ in 0..calls {
        shifts.come(rt, shift);
        made.fetch_add(1, Ordering::SeqCst);
    }
}

// Makes calls, and ends the last shift.
fn make_all<W: Wait>(rt: &W, shifts: &Shifts, made: &AtomicU64, calls: u32) {
    let mut shift = Shift::new();
    make_calls(rt, shifts, made, &mut shift, calls);
    shifts.go(&mut shift);
}

fn by_two<R: Threads + Wait + Sync>(rt: &R, shifts: &Shifts, made: &AtomicU64, calls: u32) {
    join(
        rt,
        || make_all(rt, shifts, made, calls),
        || make_all(rt, shifts, made, calls),
    );
}

#[test]
fn four_threads(rt: HostRuntime) -> Result<(), Fail> {
    let shifts = Shifts::new();
    let made = AtomicU64::new(0);
    let handle = &rt;
    join(
        &rt,
        || by_two(handle, &shifts, &made, 1000),
        || by_two(handle, &shifts, &made, 1000),
    );
    assert_eq!(rt; made.load(Ordering::SeqCst), 4000);
    Ok(())
}

// A thread that stays away in its shift holds nobody up.
#[test]
fn a_shift_that_is_left(rt: HostRuntime) -> Result<(), Fail> {
    let shifts = Shifts::new();
    let made = AtomicU64::new(0);
    let mut left = Shift::new();
    make_calls(&rt, &shifts, &made, &mut left, 3);
    make_all(&rt, &shifts, &made, 40);
    make_calls(&rt, &shifts, &made, &mut left, 30);
    shifts.go(&mut left);
    make_all(&rt, &shifts, &made, 1);
    assert_eq!(rt; made.load(Ordering::SeqCst), 74);
    Ok(())
}
