ghost use Rattle.std.specs.Prelude.{◌≡◌};
ghost use Rattle.xl_history.specs.Tally.{counted};

use spec_cache::Finished;

/// How many of the pictures that were handed in were installed, and how many came too late. A count that has reached
/// its greatest value stays there.
#[derive(Clone, Copy, PartialEq, Eq)]
pub struct Tally {
    pub installed: u32,
    pub late: u32,
}

impl Tally {
    /// The tally of no pictures.
    pub const NONE: Tally = Tally {
        installed: 0,
        late: 0,
    };

    /// The tally with one answer more.
    pub fn with(self, finished: Finished) -> Tally
        ensures { result ≡ counted self finished }
    {
        match finished {
            Finished::Installed => Tally {
                installed: self.installed.saturating_add(1),
                late: self.late,
            },
            Finished::Late { marked_at: _ } => Tally {
                installed: self.installed,
                late: self.late.saturating_add(1),
            },
            Finished::Gone => self,
        }
    }
}
