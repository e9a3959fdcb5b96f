//! What a version of the format is needed for.
ghost use Rattle.std.specs.Prelude.{◌≡◌};
ghost use Rattle.spec_written.specs.Version.{has_group, has_late_mode, indexed_version, is_late};
ghost use Rattle.xl_doc.specs.Nodes.{nodes_of};

use crate::node::Node;
use spec_document::Base;
use xl_blend::Mode;
use xl_tree::{Split, Stack};

/// Whether one of the nodes is a group.
pub fn has_group(nodes: Stack<'_, Node>) -> bool
    ensures { result ≡ has_group (nodes_of nodes.entry) }
{
    match nodes.split() {
        Split::Empty => false,
        Split::Leaf { under, .. } => has_group(under),
        Split::Group { .. } => true,
    }
}

/// Whether a mode came with version 2 of the format.
fn is_late(mode: Mode) -> bool
    ensures { result ≡ is_late mode }
{
    matches!(
        mode,
        Mode::SoftLight | Mode::GrainExtract | Mode::GrainMerge
    )
}

/// Whether one of the nodes, at any depth, has a mode that came with version 2 of the format.
pub fn has_late_mode(nodes: Stack<'_, Node>) -> bool
    ensures { result ≡ has_late_mode (nodes_of nodes.entry) }
{
    match nodes.split() {
        Split::Empty => false,
        Split::Leaf { node, under, .. } => is_late(node.mode) || has_late_mode(under),
        Split::Group {
            node,
            children,
            under,
            ..
        } => (is_late(node.mode) || has_late_mode(children)) || has_late_mode(under),
    }
}

/// The version that the base of a document needs.
pub fn indexed_version(base: Base) -> u32
    ensures { result ≡ indexed_version base }
{
    match base {
        Base::Rgb | Base::Grey => 0,
        Base::Indexed => 1,
    }
}
