/// Who passes a gate: a session or a worker, by its number.
#[derive(Clone, Copy, Debug, PartialEq, Eq)]
pub enum Actor {
    Session(u8),
    Worker(u8),
}

/// Where on its way an actor passes a gate.
#[derive(Clone, Copy, Debug, PartialEq, Eq)]
pub enum Place {
    /// A session is about to make its next call.
    BeforeCall,
    /// A session has the answer of its call.
    AfterCall,
    /// A worker has taken a job.
    JobTaken,
    /// A worker is about to hand a result in.
    BeforeFinish,
}

/// What sessions and workers pass on their way, so that a test can hold one of them until another has come somewhere.
///
/// A pass answers nothing, and it returns: a gate that holds an actor looks for the other a limited number of times.
pub trait Gate: Sync {
    fn pass(&self, actor: Actor, place: Place);
}
