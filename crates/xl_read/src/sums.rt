ghost use Rattle.std.specs.Prelude.{◌≡◌, ◌≤◌};
ghost use Rattle.xl_read.specs.Draft.{body_area, body_kept, node_kept};
ghost use Rattle.spec_document.specs.declared.TheConstants.{MAX_KEPT_BYTES};

use crate::kept::payload_bytes;
use xl_doc::{Body, Node};

/// The pixels of a layer and its mask, or a canvas for a group.
pub fn body_area(body: &Body, canvas: u64) -> u64
    ensures { result ≡ body_area canvas body.now }
{
    match body {
        Body::Leaf(layer) => layer.area(),
        Body::Group => canvas,
    }
}

/// The bytes of payload that the mask of a layer keeps.
fn body_kept(body: &Body) -> u64
    requires { body_kept body.now ≤ MAX_KEPT_BYTES }
    ensures { result ≡ body_kept body.now }
{
    match body {
        Body::Leaf(layer) => match &layer.mask {
            Some(mask) => payload_bytes(&mask.kept),
            None => 0,
        },
        Body::Group => 0,
    }
}

/// The bytes of payload that a node and its mask keep.
pub fn node_kept(node: &Node) -> u64
    requires { node_kept node.now ≤ MAX_KEPT_BYTES }
    ensures { result ≡ node_kept node.now }
{
    payload_bytes(&node.kept) + body_kept(&node.body)
}
