ghost use Rattle.std.specs.Prelude.{◌≡◌, ◌+◌, ◌≤◌, [], ◌∷◌, ◌++◌, length, OnOk, OnErr, vec_capacity};

use crate::table::Table;
use std::alloc::{AllocError, Global};
use std::marker::Model;

/// A list of tables.
#[derive(Drop)]
pub struct Tables {
    items: Vec<Table>,
}

impl Model for Tables {
    ghost use Rattle.std.specs.Prelude.{ℕ, List};

    ghost Value = { List (List ℕ) };

    ghost view = { λ l. l.items.items };
}

impl Tables {
    /// No tables.
    pub fn new(alloc: Global) -> Self
        ensures { result ≡ [] }
    {
        Tables {
            items: Vec::new(alloc),
        }
    }

    /// The tables, in their order.
    pub fn as_slice(&self) -> &[Table]
        ensures { result.now ≡ self.now }
    {
        self.items.as_slice()
    }

    /// Appends a table.
    pub fn push(&mut self, item: Table) -> Result<(), AllocError>
        ensures ok { OnOk result (self.new ≡ self.old ++ item ∷ []) }
        ensures err { OnErr result (self.new ≡ self.old) }
    {
        self.items.push(item)?;
        Ok(())
    }
}
