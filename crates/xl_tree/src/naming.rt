ghost use Rattle.std.specs.Prelude.{◌≡◌, Bool, IfOk};

use std::alloc::{AllocError, Global};

/// The id of a node. 0 names no node but the top stack.
#[derive(Clone, Copy, Debug, PartialEq, Eq)]
pub struct NodeId(pub u32);

/// What a tree asks of its nodes.
pub trait Shown {
    ghost shown: { Self → Bool };

    ghost is_group: { Self → Bool };

    /// Whether the node is shown.
    fn shown(&self) -> bool
        ensures { result ≡ shown self.now };

    /// Whether the node may have children. A tree asks once, when the node is put in.
    fn is_group(&self) -> bool
        ensures { result ≡ is_group self.now };
}

/// What a tree asks of its nodes to be made once more.
pub trait Share: Sized {
    /// The same again, which costs what its type says.
    fn share(&self, alloc: Global) -> Result<Self, AllocError>
        ensures { IfOk result (λ other. other ≡ self.now) };
}
