use crate::changes::{damage_by_colouring, damage_by_fading, damage_by_showing, with_zero};
use crate::lists::{entry, is_list};
use sample_bytes::{DEEP, FOUR, TWO};
use std::test::Fail;

/// Where the visibility of the second layer of `FOUR` stands.
const SECOND_OF_FOUR: usize = 209;

#[test]
fn another_bottom_layer(rt: HostRuntime) -> Result<(), Fail> {
    let list = damage_by_showing(rt.alloc(), &TWO, 2, false)?;
    let pixel = entry(0, 0, 0, 1, 1);
    assert!(rt; is_list(list.as_slice(), &[pixel, pixel, entry(0, 0, 0, 200, 200)]));
    Ok(())
}

#[test]
fn a_hidden_layer_in_the_middle(rt: HostRuntime) -> Result<(), Fail> {
    let hidden = with_zero(rt.alloc(), &FOUR, SECOND_OF_FOUR)?;
    let list = damage_by_showing(rt.alloc(), hidden.as_slice(), 2, true)?;
    assert!(rt; is_list(list.as_slice(), &[entry(0, 5, 5, 20, 20)]));
    Ok(())
}

#[test]
fn a_layer_in_a_group_in_a_group(rt: HostRuntime) -> Result<(), Fail> {
    let list = damage_by_fading(rt.alloc(), &DEEP, 3)?;
    let stacks = [
        entry(2, 3, 4, 5, 6),
        entry(1, 3, 4, 5, 6),
        entry(0, 3, 4, 5, 6),
    ];
    assert!(rt; is_list(list.as_slice(), &stacks));
    Ok(())
}

#[test]
fn a_layer_outside_the_canvas(rt: HostRuntime) -> Result<(), Fail> {
    let list = damage_by_fading(rt.alloc(), &FOUR, 4)?;
    assert!(rt; is_list(list.as_slice(), &[]));
    Ok(())
}

#[test]
fn other_colours(rt: HostRuntime) -> Result<(), Fail> {
    let list = damage_by_colouring(rt.alloc(), &FOUR)?;
    let layers = [
        entry(0, 0, 0, 10, 10),
        entry(0, 5, 5, 20, 20),
        entry(0, 90, 90, 10, 10),
    ];
    assert!(rt; is_list(list.as_slice(), &layers));
    Ok(())
}
