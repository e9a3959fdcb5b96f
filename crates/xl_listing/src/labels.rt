//! What names a layer, a group or a channel.
ghost use Rattle.std.specs.Prelude.{◌≡◌, IfOk, OnOk};
ghost use Rattle.serde_json.specs.View.{members_view, view};
ghost use Rattle.spec_listing.specs.Listing as spec;
ghost use Rattle.xl_listing.specs.Labels.{label_of};
ghost use Rattle.xl_listing.specs.Members.{with_label};

use crate::parasites::parasite_values;
use serde_json::{Map, Value, json, put};
use std::alloc::{AllocError, Global};
use std::str;
use xl_props::Kept;

/// The values of a name and of the parasites beside it.
#[derive(Drop)]
pub struct Label {
    pub name: Value,
    pub parasites: Vec<Value>,
    pub text: Value,
}

/// Bytes in hexadecimal digits.
pub fn digits_value(alloc: Global, bytes: &[u8]) -> Result<Value, AllocError>
    ensures { IfOk result (λ value. view value ≡ spec.digits bytes.now) }
{
    Ok(Value::from(hex::encode(alloc, bytes)?))
}

// Bytes as a text where they are UTF-8.
fn text_value(alloc: Global, bytes: &[u8]) -> Result<Value, AllocError>
    ensures { IfOk result (λ value. view value ≡ spec.text bytes.now) }
{
    match str::from_utf8(bytes) {
        Ok(text) => Ok(Value::from(String::from_str(alloc, text)?)),
        Err(_) => Ok(Value::default()),
    }
}

/// The object of a parasite's name.
pub fn parasite_object(alloc: Global, name: &[u8]) -> Result<Value, AllocError>
    ensures { IfOk result (λ value. view value ≡ spec.parasite name.now) }
{
    let digits = digits_value(alloc, name)?;
    let text = text_value(alloc, name)?;
    json!(in alloc; {
        "name": digits,
        "text": text,
    })
}

/// The label of a name and of kept properties.
pub fn make_label(alloc: Global, name: &[u8], kept: &[Kept]) -> Result<Label, AllocError>
    ensures { IfOk result (λ own. label_of own ≡ spec.label name.now kept.now) }
{
    Ok(Label {
        name: digits_value(alloc, name)?,
        parasites: parasite_values(alloc, kept)?,
        text: text_value(alloc, name)?,
    })
}

/// The object of a channel, which has its label alone.
pub fn channel_object(alloc: Global, own: Label) -> Result<Value, AllocError>
    ensures { IfOk result (λ value. view value ≡ spec.channel_object (label_of own)) }
{
    json!(in alloc; {
        "name": own.name,
        "parasites": own.parasites,
        "text": own.text,
    })
}

/// Puts a label to the members of an object.
pub fn put_label(map: &mut Map<String, Value>, alloc: Global, own: Label) -> Result<(), AllocError>
    ensures { OnOk result (members_view map.new.entries
        ≡ with_label (label_of own) (members_view map.old.entries)) }
{
    put(map, alloc, "name", own.name)?;
    put(map, alloc, "parasites", Value::from(own.parasites))?;
    put(map, alloc, "text", own.text)?;
    Ok(())
}
