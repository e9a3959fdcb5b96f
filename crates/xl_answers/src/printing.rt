ghost use Rattle.std.specs.Prelude.{◌≡◌, ◌++◌, IfOk, OnOk, OnErr, string_bytes};
ghost use Rattle.spec_text.specs.Printed.{refusal_number, refusal_value, refusal_text, or_none, reply_text, line_text};
ghost use Rattle.spec_text.specs.Printed.{order_word, order_line};
ghost use Rattle.xl_calls.specs.Replies.{reply_of};
ghost use Rattle.xl_answers.specs.Printed.{HasText};

use spec_text::OrderWord;
use std::alloc::{AllocError, Global};
use xl_calls::{EditRefused, Reply};

fn number_of(cause: EditRefused) -> u32
    ensures { result ≡ refusal_number cause }
{
    match cause {
        EditRefused::NoNode(_) => 1,
        EditRefused::IsGroup(_) => 2,
        EditRefused::NotGroup(_) => 3,
        EditRefused::Inside(_) => 4,
        EditRefused::BadPlace(_) => 5,
        EditRefused::OutsideLayer => 6,
        EditRefused::OtherType => 7,
        EditRefused::NoMask => 8,
        EditRefused::HasMask => 9,
        EditRefused::NoChannel(_) => 10,
        EditRefused::NotIndexed => 11,
        EditRefused::ModeRefused(_) => 12,
        EditRefused::TooMany(_) => 13,
        EditRefused::TooLarge(_) => 14,
        EditRefused::OffsetRange => 15,
        EditRefused::BadName => 16,
        EditRefused::GroupInIndexed => 17,
        EditRefused::Locked(_) => 18,
        EditRefused::TooDeep(_) => 19,
    }
}

fn value_of(cause: EditRefused) -> Option<u64>
    ensures { result ≡ refusal_value cause }
{
    match cause {
        EditRefused::NoNode(value)
        | EditRefused::IsGroup(value)
        | EditRefused::NotGroup(value)
        | EditRefused::Inside(value)
        | EditRefused::BadPlace(value)
        | EditRefused::NoChannel(value)
        | EditRefused::ModeRefused(value)
        | EditRefused::TooMany(value)
        | EditRefused::Locked(value)
        | EditRefused::TooDeep(value) => Some(u64::from(value)),
        EditRefused::TooLarge(area) => Some(area),
        EditRefused::OutsideLayer
        | EditRefused::OtherType
        | EditRefused::NoMask
        | EditRefused::HasMask
        | EditRefused::NotIndexed
        | EditRefused::OffsetRange
        | EditRefused::BadName
        | EditRefused::GroupInIndexed => None,
    }
}

fn print_cause(out: &mut String, cause: EditRefused) -> Result<(), AllocError>
    ensures { OnOk result (string_bytes out.new ≡ string_bytes out.old ++ refusal_text cause) }
{
    let number = number_of(cause);
    write!(out, "{number}")?;
    match value_of(cause) {
        Some(value) => write!(out, " {value}"),
        None => Ok(()),
    }
}

fn print_or_none(out: &mut String, number: Option<u32>) -> Result<(), AllocError>
    ensures { OnOk result (string_bytes out.new ≡ string_bytes out.old ++ or_none number) }
{
    match number {
        Some(number) => write!(out, "{number}"),
        None => out.push_str("none"),
    }
}

fn print_text(out: &mut String, reply: &Reply, digest: &str) -> Result<(), AllocError>
    requires { HasText reply.now }
    ensures { OnOk result (string_bytes out.new ≡ string_bytes out.old ++ reply_text digest.now
        (reply_of reply.now)) }
{
    match *reply {
        Reply::Changed {
            version,
            group,
            next,
        } => write!(out, "changed {version} {group} {next}"),
        Reply::Refused { index, cause } => {
            write!(out, "refused {index} ")?;
            print_cause(out, cause)
        }
        Reply::Moved { now } => write!(out, "moved {now}"),
        Reply::NothingToUndo => out.push_str("nothing to undo"),
        Reply::NothingToRedo => out.push_str("nothing to redo"),
        Reply::NotTop { top } => write!(out, "not top {top}"),
        Reply::Tile { version } => write!(out, "tile {version} {digest}"),
        Reply::Stale { have, seen } => {
            out.push_str("stale ")?;
            print_or_none(out, have)?;
            write!(out, " {seen}")
        }
        Reply::NoStack { node } => write!(out, "no stack {node}"),
        Reply::OutsideTile => out.push_str("outside tile"),
        Reply::Top { group, version } => {
            out.push_str("top ")?;
            print_or_none(out, group)?;
            write!(out, " {version}")
        }
        Reply::Saved { version } => write!(out, "saved {version}"),
        Reply::SaveFault { version } => write!(out, "save fault {version}"),
        Reply::SaveMemory { .. } | Reply::HistoryFull => unreachable!(),
    }
}

// The line of a call.
fn reply_line(
    alloc: Global,
    session: u8,
    index: u32,
    reply: &Reply,
    digest: &str,
) -> Result<String, AllocError>
    requires { HasText reply.now }
    ensures { IfOk result (λ line. string_bytes line ≡ line_text session index digest.now
        (reply_of reply.now)) }
{
    let mut line = String::new(alloc);
    write!(line, "{session}.{index} ")?;
    print_text(&mut line, reply, digest)?;
    line.push('\n')?;
    Ok(line)
}

/// Appends the line of a call. The digest is that of the tile, where the reply is one.
pub fn print_reply(
    alloc: Global,
    out: &mut String,
    session: u8,
    index: u32,
    reply: &Reply,
    digest: &str,
) -> Result<(), AllocError>
    requires { HasText reply.now }
    ensures ok { OnOk result (string_bytes out.new ≡ string_bytes out.old
        ++ line_text session index digest.now (reply_of reply.now)) }
    ensures err { OnErr result (string_bytes out.new ≡ string_bytes out.old) }
{
    let line = reply_line(alloc, session, index, reply, digest)?;
    out.push_str(line.as_str())
}

fn print_word(out: &mut String, word: OrderWord) -> Result<(), AllocError>
    ensures { OnOk result (string_bytes out.new ≡ string_bytes out.old ++ order_word word) }
{
    let OrderWord {
        session,
        index,
        end,
    } = word;
    write!(out, " {session}.{index}")?;
    if end { out.push('e') } else { Ok(()) }
}

// The order line.
fn order_text(alloc: Global, entries: &[OrderWord]) -> Result<String, AllocError>
    ensures { IfOk result (λ line. string_bytes line ≡ order_line entries.now) }
{
    let mut line = String::new(alloc);
    line.push_str("order")?;
    for word in entries {
        print_word(&mut line, *word)?;
    }
    line.push('\n')?;
    Ok(line)
}

/// Appends the order line, which names the entries of a history in their order.
pub fn print_order(alloc: Global, out: &mut String, entries: &[OrderWord]) -> Result<(), AllocError>
    ensures ok { OnOk result (string_bytes out.new ≡ string_bytes out.old
        ++ order_line entries.now) }
    ensures err { OnErr result (string_bytes out.new ≡ string_bytes out.old) }
{
    let line = order_text(alloc, entries)?;
    out.push_str(line.as_str())
}
