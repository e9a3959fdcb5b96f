//! Answers to calls.
ghost use Rattle.std.specs.Prelude.{◌≡◌, []};
ghost use Rattle.spec_history.specs.Machine.{names};

use std::alloc::Global;
use xl_calls::Reply;
use xl_filters::Tables;

/// The reply to a call, and the tables that its filters answered, of 256 bytes each: one for each edit that names a
/// filter, in their order, where a group was accepted, and else none.
#[derive(Drop)]
pub struct Answered {
    pub reply: Reply,
    pub tables: Tables,
}

/// A reply of a call that asked no filter.
pub fn without_filters(alloc: Global, reply: Reply) -> Answered
    ensures reply { result.reply ≡ reply }
    ensures tables { result.tables ≡ [] }
{
    Answered {
        reply,
        tables: Tables::new(alloc),
    }
}

/// Whether a number that may be named is this one.
pub fn is_named(named: Option<u32>, number: u32) -> bool
    ensures { result ≡ names named number }
{
    match named {
        None => true,
        Some(named) => named == number,
    }
}
