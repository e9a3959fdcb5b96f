ghost use Rattle.std.specs.Prelude.{◌≡◌, [], ◌∷◌, ◌++◌, length, OnOk, OnErr};

use std::alloc::{AllocError, Global};
use std::marker::Model;

/// Offsets in a file.
#[derive(Drop)]
pub struct Offsets {
    items: Vec<usize>,
}

impl Model for Offsets {
    ghost use Rattle.std.specs.Prelude.{List, ℕ};

    ghost Value = { List ℕ };

    ghost view = { λ l. l.items.items };
}

impl Offsets {
    /// No offsets.
    pub fn new(alloc: Global) -> Self
        ensures { result ≡ [] }
    {
        Offsets {
            items: Vec::new(alloc),
        }
    }

    /// How many offsets there are.
    pub fn len(&self) -> usize
        ensures { result ≡ length self.now }
    {
        self.items.len()
    }

    /// The offsets, in their order.
    pub fn as_slice(&self) -> &[usize]
        ensures { result.now ≡ self.now }
    {
        self.items.as_slice()
    }

    /// Appends an offset.
    pub fn push(&mut self, item: usize) -> Result<(), AllocError>
        ensures ok { OnOk result (self.new ≡ self.old ++ item ∷ []) }
        ensures err { OnErr result (self.new ≡ self.old) }
    {
        self.items.push(item)?;
        Ok(())
    }
}
