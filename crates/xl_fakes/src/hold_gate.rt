ghost use Rattle.std.specs.Prelude.{◌≡◌, ◌<◌, vec_len, IfOk};

use std::alloc::{AllocError, Global};
use std::sync::atomic::{AtomicBool, AtomicU64, Ordering};
use std::thread;
use xl_ports::{Actor, Gate, Place};

/// Who is held where: the pass number `nth`, from 0, of an actor at a place looks again until pass number `until_nth`
/// of another actor, or at another place, has begun.
#[derive(Clone, Copy)]
pub struct Hold {
    pub actor: Actor,
    pub place: Place,
    pub nth: u32,
    pub until_actor: Actor,
    pub until_place: Place,
    pub until_nth: u32,
}

/// How many kinds of passes there are: two kinds of actors, each with a byte for its number, at four places.
const PASSES: usize = 2 * 256 * 4;

/// A gate that holds the passes that it was told to hold, each for so many looks at most.
#[derive(Drop)]
pub struct HoldGate {
    holds: Vec<Hold>,
    limit: u32,
    // How many passes have begun, by who passes where.
    begun: Vec<AtomicU64>,
    missed: AtomicBool,
    ghost all_counted: { vec_len begun ≡ 2048 },
}

impl HoldGate {
    /// A gate with these holds, each of which makes at most `limit` looks.
    pub fn new(alloc: Global, holds: Vec<Hold>, limit: u32) -> Result<HoldGate, AllocError> {
        let begun = blank_counts(alloc)?;
        Ok(HoldGate {
            holds,
            limit,
            begun,
            missed: AtomicBool::new(false),
        })
    }

    /// Whether some hold has made all its looks in vain.
    pub fn missed(&self) -> bool {
        self.missed.load(Ordering::SeqCst)
    }

    // Looks until the other pass has begun.
    fn hold(&self, hold: &Hold) {
        let awaited = pass_number(hold.until_actor, hold.until_place);
        for _ in 0..self.limit {
            if self.begun[awaited].load(Ordering::SeqCst) > u64::from(hold.until_nth) {
                return;
            }
            thread::yield_now();
        }
        self.missed.store(true, Ordering::SeqCst);
    }
}

impl Gate for HoldGate {
    fn pass(&self, actor: Actor, place: Place) {
        let nth = self.begun[pass_number(actor, place)].fetch_add(1, Ordering::SeqCst);
        for hold in &self.holds {
            if hold.actor == actor && hold.place == place && u64::from(hold.nth) == nth {
                self.hold(hold);
            }
        }
    }
}

// A count of 0 for each kind of pass.
fn blank_counts(alloc: Global) -> Result<Vec<AtomicU64>, AllocError>
    ensures { IfOk result (λ counts. vec_len counts ≡ 2048) }
{
    let mut counts = Vec::new(alloc);
    for _ in 0..PASSES {
        counts.push(AtomicU64::new(0))?;
    }
    Ok(counts)
}

// The number of a kind of pass: who passes, and where.
fn pass_number(actor: Actor, place: Place) -> usize
    ensures { result < 2048 }
{
    let who = match actor {
        Actor::Session(number) => usize::from(number),
        Actor::Worker(number) => 256 + usize::from(number),
    };
    let at = match place {
        Place::BeforeCall => 0,
        Place::AfterCall => 1,
        Place::JobTaken => 2,
        Place::BeforeFinish => 3,
    };
    who * 4 + at
}
