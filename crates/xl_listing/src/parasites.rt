//! The names of parasites, which stand in kept properties one after another.
ghost use Rattle.std.specs.Prelude.{◌≡◌, ◌+◌, ◌≤◌, ◌++◌, length, map, IfOk, OnOk};
ghost use Rattle.serde_json.specs.View.{view};
ghost use Rattle.spec_listing.specs.Listing as listing;
ghost use Rattle.spec_listing.specs.Parasites as spec;
ghost use Rattle.xl_fields.specs.Gives.{SpanOf};

use crate::labels::parasite_object;
use serde_json::Value;
use spec_listing::PARASITES;
use std::alloc::{AllocError, Global};
use xl_fields::{Kind, ReadRefused, Span, refuse, string_at, u32_at};
use xl_props::Kept;

// The name of the parasite at an offset, and the offset behind the parasite.
#[tactic(auto, unfolding(spec_listing::specs::Parasites::parasite_at))]
fn parasite_at(payload: &[u8], at: usize) -> Result<Span, ReadRefused>
    ensures read { SpanOf payload.now result (spec.parasite_at payload.now at) }
    ensures inside { IfOk result (λ s. s.start + s.len ≤ length payload.now) }
{
    let name = string_at(payload, at)?;
    let _flags = u32_at(payload, name.next)?;
    let size = u32_at(payload, name.next + 4)? as usize;
    if payload.len() - name.next - 8 < size {
        return Err(refuse(Kind::Truncated, name.next + 8));
    }
    Ok(Span {
        start: name.start,
        len: name.len,
        next: name.next + 8 + size,
    })
}

// The names in a payload, none where it is not one parasite behind another.
fn payload_names<'a>(alloc: Global, payload: &'a [u8]) -> Result<Vec<&'a [u8]>, AllocError>
    ensures { IfOk result (λ names. map (λ n. n.now) names.items ≡ spec.payload_names payload.now) }
{
    let mut names = Vec::new(alloc);
    let mut at = 0;
    for _read in 0..payload.len() + 1 {
        if at == payload.len() {
            return Ok(names);
        }
        let Ok(one) = parasite_at(payload, at) else {
            return Ok(Vec::new(alloc));
        };
        names.push(&payload[one.start..one.start + one.len])?;
        at = one.next;
    }
    Ok(Vec::new(alloc))
}

// Appends an object for each name.
fn add_objects(alloc: Global, names: &[&[u8]], values: &mut Vec<Value>) -> Result<(), AllocError>
    ensures { OnOk result (map view values.new.items ≡ map view values.old.items
        ++ map (λ n. listing.parasite n.now) names.now) }
{
    for name in names {
        values.push(parasite_object(alloc, *name)?)?;
    }
    Ok(())
}

// Appends an object for each parasite that a property holds.
fn add_property(alloc: Global, property: &Kept, values: &mut Vec<Value>) -> Result<(), AllocError>
    ensures { OnOk result (map view values.new.items ≡ map view values.old.items
        ++ map listing.parasite (spec.property_names property.now)) }
{
    if property.kind != PARASITES {
        return Ok(());
    }
    let names = payload_names(alloc, property.payload.as_slice())?;
    add_objects(alloc, names.as_slice(), values)
}

/// The objects of the parasites in kept properties, in their order.
pub fn parasite_values(alloc: Global, kept: &[Kept]) -> Result<Vec<Value>, AllocError>
    ensures { IfOk result (λ values. map view values.items
        ≡ map listing.parasite (spec.kept_names kept.now)) }
{
    let mut values = Vec::new(alloc);
    for property in kept {
        add_property(alloc, property, &mut values)?;
    }
    Ok(values)
}
