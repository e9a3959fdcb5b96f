//! Which lines a script may have.
ghost use Rattle.std.specs.Prelude.{◌≡◌};
ghost use Rattle.spec_view.specs.Script as views;
ghost use Rattle.xl_calls.specs.Calls.{call_of};
ghost use Rattle.xl_script.specs.Commands.{asked_of, command_is};
ghost use Rattle.xl_words.specs.Reads.{Holds};
ghost use Rattle.xl_script.specs.Scopes as scopes;

use crate::command::Request;
use crate::commands::Asked;
use xl_calls::Call;
use xl_words::{Cause, WordFront};

/// Which lines a script may have: all of the grammar, or those that may be viewed.
#[derive(Clone, Copy)]
pub enum Scope {
    Whole,
    Viewed,
}

// Whether a call may be viewed.
fn is_viewed_call(call: &Call) -> bool
    ensures { result ≡ views.is_viewed_call (call_of call.now) }
{
    match call {
        Call::Peek(..) => false,
        Call::Edit(_) | Call::Undo(_) | Call::Redo | Call::Tile(..) | Call::Top => true,
    }
}

// Whether a command may be viewed.
fn is_viewed(command: &Request) -> bool
    ensures { result ≡ views.is_viewed (command_is command.now) }
{
    match command {
        Request::Save => false,
        Request::Call(call) => is_viewed_call(call),
        Request::Edit(_) | Request::Begin(_) | Request::End | Request::Forget(_) => true,
    }
}

impl Scope {
    // Whether what a line asks for may stand in such a script.
    fn may_ask(self, asked: &Asked<'_>) -> bool
        ensures { result ≡ scopes.may_ask self (asked_of asked.now) }
    {
        match self {
            Scope::Whole => true,
            Scope::Viewed => asked.session == 0 && is_viewed(&asked.command),
        }
    }

    /// Refuses what may not stand in such a script.
    pub fn check(self, asked: &Asked<'_>) -> Result<(), Cause>
        ensures { Holds result (scopes.may_ask self (asked_of asked.now)) }
    {
        if self.may_ask(asked) {
            Ok(())
        } else if asked.session != 0 {
            Err(Cause::OtherSession)
        } else {
            Err(Cause::NotViewed(WordFront::of(asked.keyword)))
        }
    }
}
