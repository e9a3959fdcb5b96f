//! A history that contracts remember.
ghost use Rattle.std.specs.Prelude.{◌≡◌};

use crate::entry::Entry;
use std::marker::Model;
use std::snapshot::Snapshot;
use xl_doc::Document;

/// The history of a core as it was at some moment. It has no bytes: contracts alone see it.
#[derive(Drop)]
pub struct Past {
    base: Snapshot<Document>,
    entries: Snapshot<Vec<Entry>>,
}

impl Model for Past {
    ghost use Rattle.std.specs.Coded.{codes};
    ghost use Rattle.spec_document.specs.Code.{coded_document};
    ghost use Rattle.spec_standing.specs.History.{History};

    ghost Value = { History };

    ghost coded = { Prim.hlevel (codes, coded_document) };

    ghost view = { λ p. record { base = p.base.value; entries = p.entries.value.items } };
}

impl Past {
    /// The history of a document with these entries.
    pub fn of(base: &Document, entries: &Vec<Entry>) -> Past
        ensures { result ≡ record { base = base.now; entries = entries.now.items } }
    {
        Past {
            base: Snapshot::of(base),
            entries: Snapshot::of(entries),
        }
    }
}
