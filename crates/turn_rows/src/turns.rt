//! Threads that take turns.
ghost use Rattle.std.specs.Prelude.{◌≡◌, ◌+◌, ◌<◌, ◌≤◌};
ghost use Rattle.std.specs.Thread.{IsSync};
ghost use Rattle.xl_turn.specs.Seats.{IsOf, IsIdle, weight_of};

use crate::tally::Tally;
use std::process::Abort;
use std::sync::Wait;
use std::test::Fail;
use std::thread::{Threads, join};
use xl_turn::{Chronicle, TurnLock, TurnSeat};

fn take_turn<W: Wait>(rt: &W, lock: &TurnLock<Tally>, seat: &mut TurnSeat<Tally>, who: u64)
    requires { IsOf lock.now seat.old × IsIdle seat.old }
    ensures { IsOf lock.now seat.new × IsIdle seat.new × (weight_of seat.new ≡ weight_of seat.old) }
{
    let mut held = lock.enter(rt, seat);
    held.value.add(who);
    lock.leave(held, seat);
}

fn take_turns<W: Wait>(
    rt: &W,
    lock: &TurnLock<Tally>,
    mut seat: TurnSeat<Tally>,
    who: u64,
    rounds: u32,
) -> TurnSeat<Tally>
    requires { IsOf lock.now seat × IsIdle seat }
    ensures { IsOf lock.now result × IsIdle result × (weight_of result ≡ weight_of seat) }
{
    for _ in 0..rounds {
        take_turn(rt, lock, &mut seat, who);
    }
    seat
}

fn by_two<R: Threads + Wait + Sync>(
    rt: &R,
    lock: &TurnLock<Tally>,
    first: TurnSeat<Tally>,
    second: TurnSeat<Tally>,
    who: u64,
    rounds: u32,
) -> TurnSeat<Tally>
    requires who { who < 100 }
    requires first { IsOf lock.now first × IsIdle first }
    requires second { IsOf lock.now second × IsIdle second }
    ensures { IsOf lock.now result × IsIdle result
        × (weight_of result ≡ weight_of first + weight_of second) }
{
    let (mut first, second) = join(
        rt,
        || take_turns(rt, lock, first, who, rounds),
        || take_turns(rt, lock, second, who + 1, rounds),
    );
    lock.join(&mut first, second);
    first
}

type Two = (TurnSeat<Tally>, TurnSeat<Tally>);

fn by_four<R: Threads + Wait + Sync>(
    rt: &R,
    lock: &TurnLock<Tally>,
    left: Two,
    right: Two,
    who: u64,
    rounds: u32,
) -> TurnSeat<Tally>
    requires who { who < 90 }
    requires left { IsOf lock.now left.0 × IsIdle left.0 × IsOf lock.now left.1 × IsIdle left.1 }
    requires right { IsOf lock.now right.0 × IsIdle right.0 × IsOf lock.now right.1
        × IsIdle right.1 }
    ensures { IsOf lock.now result × IsIdle result
        × (weight_of result ≡ (weight_of left.0 + weight_of left.1) + (weight_of right.0 + weight_of
        right.1)) }
{
    let (mut seat, other) = join(
        rt,
        || -> TurnSeat<Tally>
            requires { IsSync R.row × (who < 90) × IsOf lock.now left.0 × IsIdle left.0
                × IsOf lock.now left.1 × IsIdle left.1 }
            ensures { IsOf lock.entry.now result × IsIdle result
                × (weight_of result ≡ weight_of left.0 + weight_of left.1) }
        { by_two(rt, lock, left.0, left.1, who, rounds) },
        || -> TurnSeat<Tally>
            requires { IsSync R.row × (who < 90) × IsOf lock.now right.0 × IsIdle right.0
                × IsOf lock.now right.1 × IsIdle right.1 }
            ensures { IsOf lock.entry.now result × IsIdle result
                × (weight_of result ≡ weight_of right.0 + weight_of right.1) }
        { by_two(rt, lock, right.0, right.1, who + 2, rounds) },
    );
    lock.join(&mut seat, other);
    seat
}

fn by_eight<R: Threads + Wait + Sync>(
    rt: &R,
    lock: &TurnLock<Tally>,
    first: Two,
    second: Two,
    third: Two,
    fourth: Two,
) -> TurnSeat<Tally>
    requires first { IsOf lock.now first.0 × IsIdle first.0 × IsOf lock.now first.1 × IsIdle first.1 }
    requires second { IsOf lock.now second.0 × IsIdle second.0 × IsOf lock.now second.1 × IsIdle second.1 }
    requires third { IsOf lock.now third.0 × IsIdle third.0 × IsOf lock.now third.1 × IsIdle third.1 }
    requires fourth { IsOf lock.now fourth.0 × IsIdle fourth.0 × IsOf lock.now fourth.1 × IsIdle fourth.1 }
    ensures { IsOf lock.now result × IsIdle result
        × (weight_of result ≡ ((weight_of first.0 + weight_of first.1) + (weight_of second.0 + weight_of second.1))
        + ((weight_of third.0 + weight_of third.1) + (weight_of fourth.0 + weight_of fourth.1))) }
{
    let (mut seat, other) = join(
        rt,
        || -> TurnSeat<Tally>
            requires { IsSync R.row × IsOf lock.now first.0 × IsIdle first.0 × IsOf lock.now first.1 × IsIdle first.1
                × IsOf lock.now second.0 × IsIdle second.0 × IsOf lock.now second.1 × IsIdle second.1 }
            ensures { IsOf lock.entry.now result × IsIdle result
                × (weight_of result ≡ (weight_of first.0 + weight_of first.1)
                + (weight_of second.0 + weight_of second.1)) }
        { by_four(rt, lock, (first.0, first.1), (second.0, second.1), 0, 500) },
        || -> TurnSeat<Tally>
            requires { IsSync R.row × IsOf lock.now third.0 × IsIdle third.0 × IsOf lock.now third.1 × IsIdle third.1
                × IsOf lock.now fourth.0 × IsIdle fourth.0 × IsOf lock.now fourth.1 × IsIdle fourth.1 }
            ensures { IsOf lock.entry.now result × IsIdle result
                × (weight_of result ≡ (weight_of third.0 + weight_of third.1)
                + (weight_of fourth.0 + weight_of fourth.1)) }
        { by_four(rt, lock, (third.0, third.1), (fourth.0, fourth.1), 4, 500) },
    );
    lock.join(&mut seat, other);
    seat
}

fn two_more(lock: &TurnLock<Tally>, seat: &mut TurnSeat<Tally>) -> Two
    requires { IsOf lock.now seat.old × IsIdle seat.old × (3 ≤ weight_of seat.old) }
    ensures first { IsOf lock.now result.0 × IsIdle result.0 × (weight_of result.0 ≡ 1) }
    ensures second { IsOf lock.now result.1 × IsIdle result.1 × (weight_of result.1 ≡ 1) }
    ensures seat { IsOf lock.now seat.new × IsIdle seat.new
        × (weight_of seat.new + 2 ≡ weight_of seat.old) }
{
    (lock.split(seat), lock.split(seat))
}

#[test]
fn two_threads(rt: HostRuntime) -> Result<(), Fail> {
    let (lock, mut seat) = TurnLock::open(rt.alloc(), Tally::new(rt.alloc()))?;
    let other = lock.split(&mut seat);
    let seat = by_two(&rt, &lock, seat, other, 0, 2000);
    let tally = lock.close(seat);
    assert_eq!(rt; tally.len(), 4000);
    assert_eq!(rt; tally.turns_of(0), 2000);
    assert_eq!(rt; tally.turns_of(1), 2000);
    Ok(())
}

#[test]
fn eight_threads(rt: HostRuntime) -> Result<(), Fail> {
    let (lock, mut seat) = TurnLock::open(rt.alloc(), Tally::new(rt.alloc()))?;
    let (a, b) = two_more(&lock, &mut seat);
    let c = two_more(&lock, &mut seat);
    let d = two_more(&lock, &mut seat);
    let e = lock.split(&mut seat);
    let seat = by_eight(&rt, &lock, (seat, e), c, (a, b), d);
    let tally = lock.close(seat);
    assert_eq!(rt; tally.len(), 4000);
    for who in 0..8 {
        assert_eq!(rt; tally.turns_of(who), 500);
    }
    Ok(())
}

#[test]
fn eight_seats_by_one_thread(rt: HostRuntime) -> Result<(), Fail> {
    let (lock, mut a) = TurnLock::open(rt.alloc(), Tally::new(rt.alloc()))?;
    let (mut b, mut c) = two_more(&lock, &mut a);
    let (mut d, mut e) = two_more(&lock, &mut a);
    let (mut f, mut g) = two_more(&lock, &mut a);
    let mut h = lock.split(&mut a);
    take_turn(&rt, &lock, &mut h, 7);
    take_turn(&rt, &lock, &mut a, 0);
    take_turn(&rt, &lock, &mut e, 4);
    take_turn(&rt, &lock, &mut d, 3);
    take_turn(&rt, &lock, &mut b, 1);
    take_turn(&rt, &lock, &mut g, 6);
    take_turn(&rt, &lock, &mut c, 2);
    take_turn(&rt, &lock, &mut f, 5);
    lock.join(&mut a, b);
    lock.join(&mut c, d);
    lock.join(&mut e, f);
    lock.join(&mut g, h);
    lock.join(&mut a, c);
    lock.join(&mut e, g);
    lock.join(&mut a, e);
    let tally = lock.close(a);
    assert_eq!(rt; tally.turns(), [7, 0, 4, 3, 1, 6, 2, 5].as_slice());
    Ok(())
}
