ghost use Rattle.xcf_sessions.specs.Replies.{reply_saved};
ghost use Rattle.xcf_sessions.specs.Saved.{IsSaveTold};

use crate::errors::NotSaved;
use crate::replies::outcome_of_save;
use crate::session::Session;
use std::alloc::Global;
use std::sync::Wait;
use xl_ports::Shelf;
use xl_rle::Keeping;

impl<D: Shelf> Session<D> {
    /// Saves the latest version under the name with which the image was opened, and answers which that is. The file is made and
    /// written while the other sessions go on; a save waits for one that is under way.
    ///
    /// Errors: `Fault` where the shelf failed, after which a read gives the old file or the new one, as a crash does.
    /// After all others the save has left the file as it was: `NoMemory` where memory ran out for the new one, `HistoryFull`, and
    /// `Memory`. A save is two entries, its start and its end; after the last two there is none.
    pub fn save<W: Wait>(&mut self, rt: &W, alloc: Global) -> Result<u32, NotSaved>
        ensures { IsSaveTold D.shelf_state (reply_saved result) self.old self.new }
    {
        match self
            .studio
            .save(rt, alloc, &mut self.seat, self.number, &mut Keeping)
        {
            Ok(reply) => outcome_of_save(reply),
            Err(_) => Err(NotSaved::Memory),
        }
    }
}
