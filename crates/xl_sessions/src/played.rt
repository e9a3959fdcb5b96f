//! The lines of one session over a studio.
ghost use Rattle.std.specs.Prelude.{◌≡◌, ◌<◌, [], map, string_bytes};
ghost use Rattle.xl_filters.specs.Chests.{states_in};
ghost use Rattle.xl_script.specs.Lines.{lines_of};
ghost use Rattle.xl_sessions.specs.Lines.{CanPlaySession, IsSessionPlayed};

use crate::setting::Setting;
use std::marker::Brand;
use std::sync::Wait;
use std::sync::ledger::{Blank, Ledger};
use xl_blend::Steps;
use xl_filters::PointFilter;
use xl_ports::{Gate, Shelf};
use xl_run::Unplayed;
use xl_script::Line;
use xl_studio::{Desk, Seat, Shift};

impl<'a, W: Wait, D: Shelf, G: Gate> Setting<'a, W, D, G> {
    // Makes what the lines of a session say, with a counter of steps that it makes from `blank`.
    fn play_lines<L: Ledger>(
        &self,
        lines: Vec<Line>,
        desk: &mut Desk,
        seat: &mut Seat<D>,
        digests: &mut Vec<String>,
        blank: Blank,
        shift: &mut Shift,
    ) -> Result<(), Unplayed>
        requires name { blank.name ≡ L.name }
        requires parts { blank.parts ≡ L.parts }
        requires some { 0 < blank.parts }
        requires session { CanPlaySession self.now.studio.now self.now.session seat.old
            (states_in state desk.old.chest) (lines_of lines.items) }
        requires blank { map string_bytes digests.old.items ≡ [] }

        ensures { IsSessionPlayed self.now.studio.now self.now.session
            (states_in state desk.old.chest) (lines_of lines.items) result seat.old seat.new
            (map string_bytes digests.new.items) }
    {
        let mut steps = Steps::<L>::new(blank);
        for line in lines {
            self.play_line(line, desk, seat, &mut steps, digests, shift)?;
        }
        Ok(())
    }

    /// Makes what the lines of a session say, one after another, and passes the gate before and after each call.
    ///
    /// `digests` becomes the list of the digests of the tiles that the session was shown, in order. It stops where
    /// memory runs out, for a line or for the file of a save, and where the history has no room for a call or a save;
    /// each save that it started has ended then too. What it has made then is of the first of its calls. It makes at most
    /// two entries for each call or save of its lines.
    ///
    /// What the seat knows may name no change yet: a session is never shown less than what its seat knows, and has seen
    /// nothing before its first call.
    pub fn play_session(
        &self,
        lines: Vec<Line>,
        desk: &mut Desk,
        seat: &mut Seat<D>,
        digests: &mut Vec<String>,
    ) -> Result<(), Unplayed>
        requires session { CanPlaySession self.now.studio.now self.now.session seat.old
            (states_in state desk.old.chest) (lines_of lines.items) }
        requires blank { map string_bytes digests.old.items ≡ [] }

        ensures { IsSessionPlayed self.now.studio.now self.now.session
            (states_in state desk.old.chest) (lines_of lines.items) result seat.old seat.new
            (map string_bytes digests.new.items) }
    {
        let mut shift = Shift::new();
        let played = self.play_lines::<Brand>(
            lines,
            desk,
            seat,
            digests,
            Blank::new(1),
            &mut shift,
        );
        self.studio.go(&mut shift);
        played
    }
}
