ghost use Rattle.std.specs.Prelude.{◌≡◌, ℕ, List, Bool, Option, None, IfOk, IfSome, OnErr};
ghost use Rattle.xl_desk.specs.Places.{place_done};
ghost use Rattle.xl_history.specs.Jobs.{IsTaken, IsOfLatest, says_closing, IsOutcomeOf, finished_by};

use crate::tally::Tally;
use spec_cache::Finished;
use std::alloc::{AllocError, Global};
use std::sync::Wait;
use xl_compose::{Done, Job};
use xl_doc::Document;

/// What a desk answers to who asks for a job.
#[derive(Drop)]
pub enum Taken {
    /// A marked slot's tile is to be composed.
    Job(Job),
    /// No slot is marked.
    Nothing,
    /// No more jobs are given out.
    Closing,
}

/// Where workers take jobs, each with a seat of its own, and hand in what they have composed. A seat has one job out at
/// most.
pub trait JobDesk {
    ghost use mathlib.Core.List.{IsPrefix};
    ghost use Rattle.spec_document.specs.Document.{Document};
    ghost use Rattle.spec_history.specs.History.{Entry};
    ghost use Rattle.xl_history.specs.Jobs.{Out};
    ghost use Rattle.xl_history.specs.Tally.{counted};
    ghost use Rattle.xl_history.specs.declared.tally.Tally.{Tally};

    type Seat;

    /// The seat is this desk's.
    ghost is_of: { Self → Self.Seat → Type 0 };

    /// Whether the seat's last `take_job` answered that the desk is closing.
    ghost closed: { Self.Seat → Bool };

    /// The job that the seat has out.
    ghost out: { Self.Seat → Option Out };

    /// The part that the seat has of its studio.
    ghost weight: { Self.Seat → ℕ };

    /// The entries that were made with the seat.
    ghost places: { Self.Seat → List ℕ };

    /// The document with which the desk's history began.
    ghost base: { Self → Document };

    /// The entries of that history that the seat knows.
    ghost entries: { Self.Seat → List Entry };

    /// What became of the pictures that were handed in with the seat.
    ghost tally: { Self.Seat → Tally };

    /// Takes a job, which is then out. It is of the last version of the history that the seat knows then. After out of
    /// memory none is out.
    fn take_job<W: Wait>(
        &self,
        rt: &W,
        alloc: Global,
        seat: &mut Self::Seat,
    ) -> Result<Taken, AllocError>
        requires seat { is_of self.now seat.old }
        requires none { out seat.old ≡ None }
        ensures seat { is_of self.now seat.new }
        ensures taken { IfOk result (λ taken. IsTaken taken (out seat.new)) }
        ensures latest { IfSome (out seat.new) (IsOfLatest (base self.now) (entries seat.new)) }
        ensures memory { OnErr result (out seat.new ≡ None) }
        ensures closed { closed seat.new ≡ says_closing result }
        ensures weight { weight seat.new ≡ weight seat.old }
        ensures places { places seat.new ≡ places seat.old }
        ensures begins { IsPrefix (entries seat.old) (entries seat.new) }
        ensures tally { tally seat.new ≡ tally seat.old };

    /// Hands in the picture of the job that is out. None is out then. The answer follows from the history that the seat
    /// knows then.
    fn finish<W: Wait>(&self, rt: &W, seat: &mut Self::Seat, done: Done) -> Finished
        requires seat { is_of self.now seat.old }
        requires done { IsOutcomeOf (out seat.old) done }
        ensures finished { result ≡ finished_by (base self.now) (entries seat.new) (place_done done)
            done.version }
        ensures seat { is_of self.now seat.new }
        ensures none { out seat.new ≡ None }
        ensures closed { closed seat.new ≡ closed seat.old }
        ensures weight { weight seat.new ≡ weight seat.old }
        ensures places { places seat.new ≡ places seat.old }
        ensures begins { IsPrefix (entries seat.old) (entries seat.new) }
        ensures tally { tally seat.new ≡ counted (tally seat.old) result };
}

/// What a core does without its shelf. Behind this bound nothing is said of threads, which an `impl` of a trait could
/// not know of a shelf; so desks build on it.
pub trait JobSource {
    ghost use Rattle.xl_compose.specs.declared.clean.Done.{Done};

    /// The picture may be handed in.
    ghost may_install: { Self → Done → Type 0 };

    /// The job of the next marked slot.
    fn next_job(&mut self, alloc: Global) -> Result<Option<Job>, AllocError>;

    /// Keeps a picture, where it is not too late.
    fn install(&mut self, done: Done) -> Finished
        requires { may_install self.old done };

    /// The last version's number.
    fn last_version(&self) -> u32;

    /// The last version's document.
    fn last_document(&self) -> &Document;
}
