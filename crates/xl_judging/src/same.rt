//! Whether a reply is the one that is printed.
ghost use Rattle.std.specs.Prelude.{◌≡◌, true};
ghost use Rattle.spec_history.specs.Machine as machine;
ghost use Rattle.xl_calls.specs.Replies.{reply_of};

use xl_calls::{EditRefused, Reply};

fn is_change(version: u32, group: u32, next: u32, printed: Reply) -> bool
    ensures same { result ≡ true → reply_of printed ≡ machine.changed version group next }
    ensures found { reply_of printed ≡ machine.changed version group next → result ≡ true }
{
    match printed {
        Reply::Changed {
            version: v,
            group: g,
            next: n,
        } => v == version && g == group && n == next,
        _ => false,
    }
}

fn is_refusal(index: u32, cause: EditRefused, printed: Reply) -> bool
    ensures same { result ≡ true → reply_of printed ≡ machine.refused index cause }
    ensures found { reply_of printed ≡ machine.refused index cause → result ≡ true }
{
    match printed {
        Reply::Refused { index: i, cause: c } => i == index && c == cause,
        _ => false,
    }
}

fn is_stale(have: Option<u32>, seen: u32, printed: Reply) -> bool
    ensures same { result ≡ true → reply_of printed ≡ machine.stale have seen }
    ensures found { reply_of printed ≡ machine.stale have seen → result ≡ true }
{
    match printed {
        Reply::Stale { have: h, seen: s } => h == have && s == seen,
        _ => false,
    }
}

fn is_top(group: Option<u32>, version: u32, printed: Reply) -> bool
    ensures same { result ≡ true → reply_of printed ≡ machine.top_is group version }
    ensures found { reply_of printed ≡ machine.top_is group version → result ≡ true }
{
    match printed {
        Reply::Top {
            group: g,
            version: v,
        } => g == group && v == version,
        _ => false,
    }
}

/// Whether a reply is the printed one.
pub fn is_same(reply: Reply, printed: Reply) -> bool
    ensures same { result ≡ true → reply_of printed ≡ reply_of reply }
    ensures found { reply_of printed ≡ reply_of reply → result ≡ true }
{
    match reply {
        Reply::Changed {
            version,
            group,
            next,
        } => is_change(version, group, next, printed),
        Reply::Refused { index, cause } => is_refusal(index, cause, printed),
        Reply::Stale { have, seen } => is_stale(have, seen, printed),
        Reply::Top { group, version } => is_top(group, version, printed),
        Reply::Moved { .. }
        | Reply::NothingToUndo
        | Reply::NothingToRedo
        | Reply::NotTop { .. }
        | Reply::Tile { .. }
        | Reply::NoStack { .. }
        | Reply::OutsideTile
        | Reply::Saved { .. }
        | Reply::SaveFault { .. }
        | Reply::SaveMemory { .. }
        | Reply::HistoryFull => reply == printed,
    }
}
