//! Lists of edits.
ghost use Rattle.std.specs.Prelude.{◌≡◌, ◌==◌, [], ◌∷◌, ◌++◌, length, OnOk, OnErr};

use crate::edit::Edit;
use std::alloc::{AllocError, Global};
use std::marker::Model;

/// A list of edits.
#[derive(Drop)]
pub struct Edits {
    items: Vec<Edit>,
}

impl Model for Edits {
    ghost use Rattle.std.specs.Prelude.{List};
    ghost use Rattle.xl_calls.specs.declared.edit.Edit.{Edit};

    ghost Value = { List Edit };

    ghost view = { λ l. l.items.items };
}

impl Edits {
    /// No edits.
    pub fn new(alloc: Global) -> Self
        ensures { result ≡ [] }
    {
        Edits {
            items: Vec::new(alloc),
        }
    }

    /// How many edits there are.
    pub fn len(&self) -> usize
        ensures { result ≡ length self.now }
    {
        self.items.len()
    }

    /// Whether there is none.
    pub fn is_empty(&self) -> bool
        ensures { result ≡ (length self.now == 0) }
    {
        self.items.is_empty()
    }

    /// The edits, in their order.
    pub fn as_slice(&self) -> &[Edit]
        ensures { result.now ≡ self.now }
    {
        self.items.as_slice()
    }

    /// Appends an edit.
    pub fn push(&mut self, item: Edit) -> Result<(), AllocError>
        ensures ok { OnOk result (self.new ≡ self.old ++ item ∷ []) }
        ensures err { OnErr result (self.new ≡ self.old) }
    {
        self.items.push(item)?;
        Ok(())
    }
}
