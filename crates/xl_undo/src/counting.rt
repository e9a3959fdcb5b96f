//! How many tiles differ between two documents.
ghost use Rattle.std.specs.Prelude.{◌≡◌, ◌+◌, length};
ghost use Rattle.std.specs.Option.{option_copied};
ghost use Rattle.spec_document.specs.Document as sheet;
ghost use Rattle.spec_undo.specs.Planes.{are_alike, changed_tiles as changed_planes, tile_count};
ghost use Rattle.spec_undo.specs.Changed as doc;
ghost use Rattle.spec_document.specs.Forest.{Found};
ghost use Rattle.xl_doc.specs.Nodes.{MarksAgree, nodes_of};
ghost use Rattle.xl_undo.specs.Held.{held};
ghost use Rattle.xl_undo.specs.Seen.{IsLayerOf, IsSeen};

use xl_doc::{Body, Channel, Document, Layer, Node, Plane, SCRATCH, Tree, know_limits};
use xl_tree::{Split, Stack};

/// The tiles that differ between two documents, with all tiles of planes that only one of them has.
pub fn changed_tiles(before: &Document, after: &Document) -> u32
    ensures { result ≡ doc.changed_in before.now after.now }
{
    know_limits(before);
    know_limits(after);
    sum_of_parts(before, after)
}

fn sum_of_parts(before: &Document, after: &Document) -> u32
    ensures { result ≡ held (doc.changed_in before.now after.now) }
{
    let mut scratch = [0; SCRATCH];
    let mut other_scratch = [0; SCRATCH];
    let layers = changed_layers(
        before.tree.top(),
        &after.tree,
        &mut scratch,
        &mut other_scratch,
    );
    let alone = layers_alone(after.tree.top(), &before.tree);
    let channels = changed_channels(
        before.channels.as_slice(),
        after.channels.as_slice(),
        &mut scratch,
        &mut other_scratch,
    );
    let selection = changed_if_any(
        &before.selection,
        &after.selection,
        &mut scratch,
        &mut other_scratch,
    );
    sum(sum(sum(layers, alone), channels), selection)
}

// The sum, or the greatest number where it is above that.
fn sum(one: u32, other: u32) -> u32
    ensures { result ≡ held (one + other) }
{
    one.saturating_add(other)
}

// ---- planes

// Whether sides and bytes per pixel are the same.
fn are_alike(before: &Plane, after: &Plane) -> bool
    ensures { result ≡ are_alike before.now after.now }
{
    before.width() == after.width()
        && (before.height() == after.height() && before.bpp() == after.bpp())
}

// How many tiles of two planes differ: all tiles of both, where their sides or bytes per pixel do.
#[tactic(auto, unfolding(spec_undo::specs::Planes::changed_tiles))]
fn changed_plane(before: &Plane, after: &Plane, scratch: &mut [u8], other_scratch: &mut [u8]) -> u32
    requires scratch { length scratch.old ≡ SCRATCH }
    requires other_scratch { length other_scratch.old ≡ SCRATCH }
    ensures { result ≡ held (changed_planes before.now after.now) }
{
    if are_alike(before, after) {
        before.tiles_changed(after, scratch, other_scratch)
    } else {
        sum(before.tile_count(), after.tile_count())
    }
}

// ---- channels, masks and selections

// The tiles of a channel, if there is one.
fn count_if_any(channel: &Option<Channel>) -> u32
    ensures { result ≡ doc.count_if_any channel.now }
{
    match channel {
        None => 0,
        Some(channel) => channel.plane.tile_count(),
    }
}

// How many tiles of two channels differ, with all tiles of one that is there alone.
fn changed_if_any(
    before: &Option<Channel>,
    after: &Option<Channel>,
    scratch: &mut [u8],
    other_scratch: &mut [u8],
) -> u32
    requires scratch { length scratch.old ≡ SCRATCH }
    requires other_scratch { length other_scratch.old ≡ SCRATCH }
    ensures { result ≡ held (doc.changed_if_any before.now after.now) }
{
    let Some(before) = before else {
        return count_if_any(after);
    };
    match after {
        None => before.plane.tile_count(),
        Some(after) => changed_plane(&before.plane, &after.plane, scratch, other_scratch),
    }
}

// The tiles of all these channels.
fn channels_count(channels: &[Channel]) -> u32
    ensures { result ≡ held (doc.channels_count channels.now) }
{
    match channels.split_first() {
        None => 0,
        Some((first, rest)) => sum(first.plane.tile_count(), channels_count(rest)),
    }
}

// How many tiles differ of channels with the same index, with all tiles of those that are there alone.
fn changed_channels(
    before: &[Channel],
    after: &[Channel],
    scratch: &mut [u8],
    other_scratch: &mut [u8],
) -> u32
    requires scratch { length scratch.old ≡ SCRATCH }
    requires other_scratch { length other_scratch.old ≡ SCRATCH }
    ensures { result ≡ held (doc.changed_channels before.now after.now) }
{
    let Some((one, before)) = before.split_first() else {
        return channels_count(after);
    };
    match after.split_first() {
        None => sum(one.plane.tile_count(), channels_count(before)),
        Some((other, after)) => sum(
            changed_plane(&one.plane, &other.plane, scratch, other_scratch),
            changed_channels(before, after, scratch, other_scratch),
        ),
    }
}

// ---- layers

// The tiles of a layer and its mask.
fn layer_count(layer: &Layer) -> u32
    ensures { result ≡ held (tile_count layer.now.plane + doc.count_if_any layer.now.mask) }
{
    sum(layer.plane.tile_count(), count_if_any(&layer.mask))
}

// How many tiles of two layers and their masks differ.
fn changed_layer(before: &Layer, after: &Layer, scratch: &mut [u8], other_scratch: &mut [u8]) -> u32
    requires scratch { length scratch.old ≡ SCRATCH }
    requires other_scratch { length other_scratch.old ≡ SCRATCH }
    ensures { result ≡ held (changed_planes before.now.plane after.now.plane
        + doc.changed_if_any before.now.mask after.now.mask) }
{
    let plane = changed_plane(&before.plane, &after.plane, scratch, other_scratch);
    sum(
        plane,
        changed_if_any(&before.mask, &after.mask, scratch, other_scratch),
    )
}

// How many tiles differ of the layer of a node and of what another document has at its id. A group has no
// tiles.
fn changed_body(
    before: &Body,
    after: Option<&Node>,
    scratch: &mut [u8],
    other_scratch: &mut [u8],
) -> u32
    requires scratch { length scratch.old ≡ SCRATCH }
    requires other_scratch { length other_scratch.old ≡ SCRATCH }
    ensures { (l : sheet.Layer) (found : Found sheet.Layer sheet.Group) → IsLayerOf l before.now
        → IsSeen found (option_copied after.entry) → result ≡ held (doc.changed_layer l found) }
{
    let Body::Leaf(before) = before else {
        return 0;
    };
    let Some(after) = after else {
        return layer_count(before);
    };
    match &after.body {
        Body::Leaf(after) => changed_layer(before, after, scratch, other_scratch),
        Body::Group => layer_count(before),
    }
}

// The tiles of the layer of a node, where another document has no layer at its id.
fn body_alone(body: &Body, other: Option<&Node>) -> u32
    ensures { (l : sheet.Layer) (found : Found sheet.Layer sheet.Group) → IsLayerOf l body.now
        → IsSeen found (option_copied other.entry) → result ≡ held (doc.count_if_alone l found) }
{
    let Body::Leaf(layer) = body else {
        return 0;
    };
    let Some(other) = other else {
        return layer_count(layer);
    };
    match &other.body {
        Body::Leaf(_) => 0,
        Body::Group => layer_count(layer),
    }
}

// How many tiles differ of the layers of these nodes, at any depth, and of what another tree has at their ids.
fn changed_layers(
    nodes: Stack<'_, Node>,
    other: &Tree<Node>,
    scratch: &mut [u8],
    other_scratch: &mut [u8],
) -> u32
    requires scratch { length scratch.old ≡ SCRATCH }
    requires other_scratch { length other_scratch.old ≡ SCRATCH }
    requires agree { MarksAgree other.now }
    requires leaves { MarksAgree nodes }
    ensures { result ≡ held (doc.over_layers doc.changed_layer (nodes_of other.now)
        (nodes_of nodes.entry)) }
{
    match nodes.split() {
        Split::Empty => 0,
        Split::Leaf { id, node, under } => sum(
            changed_body(&node.body, other.find(id), scratch, other_scratch),
            changed_layers(under, other, scratch, other_scratch),
        ),
        Split::Group {
            children,
            under,
            ..
        } => sum(
            changed_layers(children, other, scratch, other_scratch),
            changed_layers(under, other, scratch, other_scratch),
        ),
    }
}

// The tiles of the layers of these nodes, at any depth, at whose ids another tree has no layer.
fn layers_alone(nodes: Stack<'_, Node>, other: &Tree<Node>) -> u32
    requires agree { MarksAgree other.now }
    requires leaves { MarksAgree nodes }
    ensures { result ≡ held (doc.over_layers doc.count_if_alone (nodes_of other.now)
        (nodes_of nodes.entry)) }
{
    match nodes.split() {
        Split::Empty => 0,
        Split::Leaf { id, node, under } => sum(
            body_alone(&node.body, other.find(id)),
            layers_alone(under, other),
        ),
        Split::Group {
            children,
            under,
            ..
        } => sum(layers_alone(children, other), layers_alone(under, other)),
    }
}
