//! The seats of a run, joined again.
ghost use Rattle.std.specs.List.{AllByRecursion, list_all};
ghost use Rattle.std.specs.Prelude.{◌≡◌, ◌+◌, ◌≤◌, [], ◌++◌, length, map, flat_map, vec_capacity, is_none};
ghost use mathlib.Core.List.{IsPrefix};
ghost use Rattle.xl_sessions.specs.Full.{IsNotFull};
ghost use Rattle.xl_sessions.specs.Players.{first_stopped, places_of, shown_of, weight_in, AreKnown, AreSeats, HasWorked};
ghost use Rattle.xl_sessions.specs.Outcomes.{texts_of};
ghost use Rattle.xl_studio.specs.Jobs.{job_out};
ghost use Rattle.xl_studio.specs.Seats.{front_of, made_of, weight_of, IsSeatOf};
ghost use Rattle.xl_turn.specs.Sums.{total};

use crate::players::{Player, Worker};
use xl_ports::Shelf;
use xl_run::Unplayed;
use xl_studio::{Seat, Studio};

/// Joins the seats of the sessions, and takes their digests, those of the first session first.
/// Answers why the first of those ended that did before their last line.
pub(crate) fn join_players<D: Shelf>(
    studio: &Studio<D>,
    own: &mut Seat<D>,
    players: Vec<Player<Seat<D>>>,
    digests: &mut Vec<Vec<String>>,
) -> Option<Unplayed>
    requires own { IsSeatOf studio.now own.old }
    requires seats { AreSeats studio.now players.items }
    requires none { digests.old.items ≡ [] }
    requires capacity { length players.items ≤ vec_capacity digests.old }
    ensures own { IsSeatOf studio.now own.new }
    ensures job { job_out own.new ≡ job_out own.old }
    ensures made { made_of own.new ≡ made_of own.old ++ flat_map places_of players.items }
    ensures weight { weight_of own.new ≡ weight_of own.old + total weight_in players.items }
    ensures begins { IsPrefix (front_of own.old) (front_of own.new) }
    ensures known { AreKnown (front_of own.new) players.items }
    ensures digests { texts_of digests.new.items ≡ map shown_of players.items }
    ensures first { result ≡ first_stopped players.items }
    ensures done { is_none result ≡ list_all (λ p. is_none p.stopped) players.items }
    ensures not_full { AllByRecursion (λ p. IsNotFull p.stopped) players.items → IsNotFull result }
{
    let mut stopped = None;
    for player in players {
        let Player {
            part: _,
            seat,
            digests: shown,
            stopped: why,
        } = player;
        studio.join(own, seat);
        digests.push_reserved(shown);
        stopped = stopped.or(why);
    }
    stopped
}

/// Joins the seats of the workers, which have made no entry.
pub(crate) fn join_workers<D: Shelf>(
    studio: &Studio<D>,
    own: &mut Seat<D>,
    workers: Vec<Worker<Seat<D>>>,
)
    requires own { IsSeatOf studio.now own.old }
    requires worked { AllByRecursion (HasWorked studio.now) workers.items }
    ensures own { IsSeatOf studio.now own.new }
    ensures job { job_out own.new ≡ job_out own.old }
    ensures made { made_of own.new ≡ made_of own.old }
    ensures weight { weight_of own.new ≡ weight_of own.old + length workers.items }
    ensures begins { IsPrefix (front_of own.old) (front_of own.new) }
{
    for worker in workers {
        let Worker { number: _, seat } = worker;
        studio.join(own, seat);
    }
}
