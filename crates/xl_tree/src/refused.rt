use thiserror::Error;

/// Why a tree was not changed.
#[derive(Clone, Copy, Debug, PartialEq, Eq, Error)]
pub enum TreeRefused {
    /// There is no node with this id.
    #[error("no node {0}")]
    NoNode(u32),
    /// The node with this id is no group.
    #[error("node {0} is no group")]
    NotGroup(u32),
    /// The group with this id is the node that was to be moved into it, or stands below it.
    #[error("group {0} is inside the node")]
    Inside(u32),
    /// The stack has only so many nodes.
    #[error("only {0} children")]
    BadPlace(u32),
}
