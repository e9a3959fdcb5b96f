use std::marker::Model;
use xl_desk::{Call, Reply};
use xl_filters::Tables;

/// What an entry of a history is.
#[derive(Drop)]
pub enum EntryKind {
    /// A call, with the tables that its filters answered.
    Asked { call: Call, tables: Tables },
    /// A save begins.
    Start,
    /// A save ends.
    End,
}

/// What one hold of the document did: which call of which session it was, and its reply.
///
/// The index counts the session's calls from 0; the end of a save has the index of its start.
#[derive(Drop)]
pub struct Entry {
    pub session: u8,
    pub index: u32,
    pub kind: EntryKind,
    pub reply: Reply,
}

impl Model for Entry {
    ghost use Rattle.spec_history.specs.History as history;

    ghost Value = { history.Entry };

    ghost use Rattle.xl_history.specs.Entries.{kind_of};
    ghost use Rattle.xl_desk.specs.Replies.{reply_of};

    ghost view = { λ e. record { session = e.session; index = e.index; kind = kind_of e.kind; reply = reply_of e.reply } };
}
