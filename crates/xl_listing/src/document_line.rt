//! The line of a document.
ghost use Rattle.std.specs.Prelude.{◌≡◌, IfOk, OnOk, string_bytes, map};
ghost use Rattle.serde_json.specs.View.{members_view, view};
ghost use Rattle.spec_listing.specs.Listing as spec;
ghost use Rattle.xl_doc.specs.Nodes.{IsLeaf, MarksAgree, group_of, layer_of, nodes_of};
ghost use Rattle.xl_doc.specs.declared.node.Body.TheVariants.{Leaf};
ghost use Rattle.xl_listing.specs.Labels.{label_of};
ghost use Rattle.xl_listing.specs.Members.{with_node, with_sheet};

use crate::labels::{Label, channel_object, digits_value, make_label, put_label};
use crate::parasites::parasite_values;
use serde_json::{Map, Value, json, put};
use std::alloc::{AllocError, Global};
use xl_blend::code_of;
use xl_doc::{Body, Channel, Document, Layer, Node, base_code};
use xl_tree::{Split, Stack};

// Puts what layers and groups have alike to the members of an object.
fn put_node(
    map: &mut Map<String, Value>,
    alloc: Global,
    id: u32,
    node: &Node,
) -> Result<(), AllocError>
    ensures { OnOk result (members_view map.new.entries
        ≡ with_node id (group_of node.now) (members_view map.old.entries)) }
{
    put(map, alloc, "id", Value::from(id))?;
    put(map, alloc, "lock_alpha", Value::from(node.lock_alpha))?;
    put(map, alloc, "lock_content", Value::from(node.lock_content))?;
    put(map, alloc, "mode", Value::from(code_of(node.mode)))?;
    put(map, alloc, "opacity", Value::from(node.opacity))?;
    put(map, alloc, "visible", Value::from(node.visible))?;
    Ok(())
}

// Puts what a layer alone has to the members of an object.
fn put_layer(map: &mut Map<String, Value>, alloc: Global, layer: &Layer) -> Result<(), AllocError>
    ensures { OnOk result (members_view map.new.entries
        ≡ with_sheet layer.now (members_view map.old.entries)) }
{
    let offset = json!(in alloc; [layer.x, layer.y])?;
    put(map, alloc, "offset", offset)?;
    put(map, alloc, "apply_mask", Value::from(layer.apply_mask))?;
    put(map, alloc, "height", Value::from(layer.plane.height()))?;
    put(map, alloc, "mask", Value::from(layer.mask.is_some()))?;
    put(map, alloc, "type", Value::from(layer.kind))?;
    put(map, alloc, "width", Value::from(layer.plane.width()))?;
    Ok(())
}

// The object of a layer, with its label.
fn layer_object(
    alloc: Global,
    id: u32,
    own: Label,
    node: &Node,
    layer: &Layer,
) -> Result<Value, AllocError>
    requires { node.now.body ≡ Leaf layer.now }
    ensures { IfOk result (λ value. view value
        ≡ spec.layer_object id (layer_of node.now) (label_of own)) }
{
    let mut map = Map::new(alloc);
    put_label(&mut map, alloc, own)?;
    put_node(&mut map, alloc, id, node)?;
    put_layer(&mut map, alloc, layer)?;
    Ok(Value::from(map))
}

// The object of a group, with its label and the values of its children.
fn group_object(
    alloc: Global,
    id: u32,
    own: Label,
    node: &Node,
    children: Vec<Value>,
) -> Result<Value, AllocError>
    ensures { IfOk result (λ value. view value ≡ spec.group_object id (group_of node.now)
        (label_of own) (map view children.items)) }
{
    let mut map = Map::new(alloc);
    put(&mut map, alloc, "children", Value::from(children))?;
    put_label(&mut map, alloc, own)?;
    put_node(&mut map, alloc, id, node)?;
    Ok(Value::from(map))
}

fn layer_value(alloc: Global, id: u32, node: &Node) -> Result<Value, AllocError>
    requires { IsLeaf node.now.body }
    ensures { IfOk result (λ value. view value ≡ spec.layer_node id (layer_of node.now)) }
{
    let own = make_label(alloc, node.name.as_slice(), node.kept.as_slice())?;
    match &node.body {
        Body::Leaf(layer) => layer_object(alloc, id, own, node, layer),
        Body::Group => unreachable!(),
    }
}

fn group_value(
    alloc: Global,
    id: u32,
    node: &Node,
    children: Vec<Value>,
) -> Result<Value, AllocError>
    ensures { IfOk result (λ value. view value ≡ spec.group_node id (group_of node.now)
        (map view children.items)) }
{
    let own = make_label(alloc, node.name.as_slice(), node.kept.as_slice())?;
    group_object(alloc, id, own, node, children)
}

// The layers and groups of a stack, topmost first.
fn node_values(alloc: Global, nodes: Stack<'_, Node>) -> Result<Vec<Value>, AllocError>
    requires { MarksAgree nodes }
    ensures { IfOk result (λ values. map view values.items ≡ spec.nodes (nodes_of nodes.entry)) }
{
    let mut values = Vec::new(alloc);
    let mut rest = nodes;
    loop {
        rest = match rest.split() {
            Split::Empty => return Ok(values),
            Split::Leaf { id, node, under } => {
                values.push(layer_value(alloc, id.0, node)?)?;
                under
            }
            Split::Group {
                id,
                node,
                children,
                under,
            } => {
                let inside = node_values(alloc, children)?;
                values.push(group_value(alloc, id.0, node, inside)?)?;
                under
            }
        };
    }
}

fn channel_value(alloc: Global, channel: &Channel) -> Result<Value, AllocError>
    ensures { IfOk result (λ value. view value ≡ spec.channel channel.now) }
{
    let own = make_label(alloc, channel.name.as_slice(), channel.kept.as_slice())?;
    channel_object(alloc, own)
}

fn channel_values(alloc: Global, channels: &[Channel]) -> Result<Vec<Value>, AllocError>
    ensures { IfOk result (λ values. map view values.items ≡ map spec.channel channels.now) }
{
    let mut values = Vec::new(alloc);
    for channel in channels {
        values.push(channel_value(alloc, channel)?)?;
    }
    Ok(values)
}

fn colour_values(alloc: Global, colours: &[[u8; 3]]) -> Result<Vec<Value>, AllocError>
    ensures { IfOk result (λ values. map view values.items ≡ map spec.digits colours.now) }
{
    let mut values = Vec::new(alloc);
    for colour in colours {
        values.push(digits_value(alloc, colour.as_slice())?)?;
    }
    Ok(values)
}

// The object of a document, with the values of what it holds.
fn document_object(
    alloc: Global,
    doc: &Document,
    channels: Vec<Value>,
    colours: Vec<Value>,
    layers: Vec<Value>,
    parasites: Vec<Value>,
) -> Result<Value, AllocError>
    ensures { IfOk result (λ value. view value ≡ spec.document_object doc.now
        (map view channels.items)
        (map view colours.items)
        (map view layers.items)
        (map view parasites.items)) }
{
    json!(in alloc; {
        "base": base_code(doc.base),
        "channels": channels,
        "colours": colours,
        "compression": doc.compression,
        "height": doc.height,
        "layers": layers,
        "parasites": parasites,
        "selection": doc.selection.is_some(),
        "version": doc.least_version(),
        "width": doc.width,
    })
}

fn document_value(alloc: Global, doc: &Document) -> Result<Value, AllocError>
    ensures { IfOk result (λ value. view value ≡ spec.document doc.now) }
{
    let channels = channel_values(alloc, doc.channels.as_slice())?;
    let colours = colour_values(alloc, doc.colours.as_slice())?;
    let layers = node_values(alloc, doc.tree.top())?;
    let parasites = parasite_values(alloc, doc.kept.as_slice())?;
    document_object(alloc, doc, channels, colours, layers, parasites)
}

/// A document as a line of compact JSON with all that is listed of it, the keys of each object in alphabetical order.
pub fn listing(alloc: Global, doc: &Document) -> Result<String, AllocError>
    ensures { IfOk result (λ text. string_bytes text ≡ spec.listing doc.now) }
{
    let object = document_value(alloc, doc)?;
    let mut line = object.to_string(alloc)?;
    line.push_str("\n")?;
    Ok(line)
}
