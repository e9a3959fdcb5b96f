//! What a node covers of the canvas.
ghost use Rattle.std.specs.Prelude.{◌≡◌, ◌+ℤ◌, None, true};
ghost use Rattle.spec_damage.specs.Damage.{moved};
ghost use Rattle.spec_edit.specs.Refusal.{node, outside_layer};
ghost use Rattle.spec_document.specs.Rect.{lies_on, meet, no_rect, sheet};
ghost use Rattle.spec_document.specs.Picture.{extent};
ghost use Rattle.xl_doc.specs.Extents.{IsReach};
ghost use Rattle.xl_grid.specs.Small.{IsNear, IsSmall};

use xl_doc::{Body, Document, Layer, NodeId, Rect};
use xl_grid::meet;

/// A rectangle without a point.
fn no_rect() -> Rect
    ensures value { result ≡ no_rect }
    ensures small { IsSmall result }
{
    Rect {
        x: 0,
        y: 0,
        w: 0,
        h: 0,
    }
}

fn canvas(doc: &Document) -> Rect
    ensures value { result ≡ sheet doc.now.width doc.now.height }
    ensures small { IsSmall result }
{
    Rect {
        x: 0,
        y: 0,
        w: doc.width,
        h: doc.height,
    }
}

/// The part of a rectangle that is on the canvas.
pub(crate) fn part_on_canvas(doc: &Document, rect: Rect) -> Rect
    requires { IsSmall rect }
    ensures { result ≡ meet rect (sheet doc.now.width doc.now.height) }
{
    meet(rect, canvas(doc))
}

fn layer_rect(layer: &Layer) -> Rect
    ensures value { result ≡ record { x = layer.now.x; y = layer.now.y; w = layer.now.plane.width; h = layer.now.plane.height } }
    ensures reach { IsReach result }
    ensures small { IsSmall result }
{
    Rect {
        x: layer.x,
        y: layer.y,
        w: layer.plane.width(),
        h: layer.plane.height(),
    }
}

/// The part of the canvas that a node can cover, and nothing where there is no such node.
pub fn extent(doc: &Document, id: NodeId) -> Rect
    ensures value { result ≡ extent doc.now id.0 }
    ensures small { IsSmall result }
{
    let Some(node) = doc.tree.find(id) else {
        return part_on_canvas(doc, no_rect());
    };
    match &node.body {
        Body::Leaf(layer) => part_on_canvas(doc, layer_rect(layer)),
        Body::Group => doc.group_extent(id),
    }
}

// The coordinate on the canvas of a place in a layer that starts there.
fn past(start: i32, place: i32) -> i32
    requires start { IsNear start }
    requires place { IsNear place }
    ensures { result ≡ start +ℤ place }
{
    start + place
}

// A rectangle whose coordinates count from the corner of a layer's.
fn shift(whole: Rect, rect: Rect) -> Rect
    requires whole { IsSmall whole }
    requires rect { IsSmall rect }
    ensures { result ≡ record { x = whole.x +ℤ rect.x; y = whole.y +ℤ rect.y; w = rect.w; h = rect.h } }
{
    Rect {
        x: past(whole.x, rect.x),
        y: past(whole.y, rect.y),
        w: rect.w,
        h: rect.h,
    }
}

/// A rectangle in a layer's own coordinates, as one of the canvas.
fn layer_part(layer: &Layer, rect: Rect) -> Rect
    requires { lies_on layer.now.plane.width layer.now.plane.height rect ≡ true }
    ensures value { result ≡ record { x = layer.now.x +ℤ rect.x; y = layer.now.y +ℤ rect.y; w = rect.w; h = rect.h } }
    ensures small { IsSmall result }
{
    shift(layer_rect(layer), rect)
}

/// A rectangle of a layer, as one of the canvas; nothing where the node is no layer.
pub fn node_part(doc: &Document, id: NodeId, rect: Rect) -> Rect
    requires { outside_layer doc.now id.0 rect ≡ None }
    ensures value { result ≡ moved (node doc.now id.0) rect }
    ensures small { IsSmall result }
{
    let Some(node) = doc.tree.find(id) else {
        return no_rect();
    };
    match &node.body {
        Body::Leaf(layer) => layer_part(layer, rect),
        Body::Group => no_rect(),
    }
}
