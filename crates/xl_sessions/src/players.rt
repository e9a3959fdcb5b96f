//! What each session and each worker of a run has for itself.
use xl_run::Unplayed;
use xl_script::Line;
use xl_studio::Desk;

/// What a session brings to a run: its lines, and the desk with its filters.
#[derive(Drop)]
pub(crate) struct SessionPart {
    pub(crate) session: u8,
    pub(crate) lines: Vec<Line>,
    pub(crate) desk: Desk,
}

/// A session with its seat, of the type `S`.
#[derive(Drop)]
pub(crate) struct Player<S> {
    pub(crate) part: SessionPart,
    pub(crate) seat: S,
    // The digests of the tiles that it was shown.
    pub(crate) digests: Vec<String>,
    // Why it ended before its last line.
    pub(crate) stopped: Option<Unplayed>,
}

/// A worker with its seat, of the type `S`.
#[derive(Drop)]
pub(crate) struct Worker<S> {
    pub(crate) number: u8,
    pub(crate) seat: S,
}

/// All memory that the sessions and the workers of a run need before they start.
#[derive(Drop)]
pub(crate) struct Room<S> {
    pub(crate) parts: Vec<SessionPart>,
    pub(crate) players: Vec<Player<S>>,
    pub(crate) workers: Vec<Worker<S>>,
    pub(crate) digests: Vec<Vec<String>>,
}
