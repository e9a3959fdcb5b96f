//! Texts that are known up to the order in which the calls of sessions came.

use std::alloc::{AllocError, Global};

/// Whether a text has these lines and an order line with the call of each, those of a session as it made them. Each `#`
/// of a line stands for the place of its call in the order line, from 1.
pub fn is_ordered(alloc: Global, lines: &str, text: &str) -> Result<bool, AllocError> {
    let order = text.lines().last().unwrap_or("");
    let is_whole = order.split(' ').count() == lines.lines().count().saturating_add(1);
    Ok(is_whole && is_in_order(lines, order) && text_by(alloc, lines, order)?.as_str() == text)
}

// The call of a line, such as `0.1`.
fn call_of(line: &str) -> &str {
    line.split(' ').next().unwrap_or("")
}

fn session_of(line: &str) -> &str {
    line.split('.').next().unwrap_or("")
}

// The place of a call in the order line, in which the first word stands for the start.
fn place_in(order: &str, call: &str) -> usize {
    let mut place: usize = 0;
    for word in order.split(' ') {
        if word == call {
            return place;
        }
        place = place.saturating_add(1);
    }
    place
}

fn is_in_order(lines: &str, order: &str) -> bool {
    let mut last = ("", 0);
    for line in lines.lines() {
        let next = (session_of(line), place_in(order, call_of(line)));
        if next.0 == last.0 && next.1 <= last.1 {
            return false;
        }
        last = next;
    }
    true
}

// The text that an order line tells.
fn text_by(alloc: Global, lines: &str, order: &str) -> Result<String, AllocError> {
    let mut text = String::new(alloc);
    for line in lines.lines() {
        let place = format!(in alloc; "{}", place_in(order, call_of(line)))?;
        text.push_str(line.replace(alloc, '#', place.as_str())?.as_str())?;
        text.push('\n')?;
    }
    text.push_str(order)?;
    text.push('\n')?;
    Ok(text)
}
