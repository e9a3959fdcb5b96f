//! Sentences on calls that did nothing.
use std::alloc::{AllocError, Global};
use std::test::Fail;
use xl_fakes::MemorySink;
use xl_messages::WatchedSink;
use xl_ports::{Sink, write_all};

/// What a command prints, and what is said of it.
#[derive(Clone, Copy)]
struct Printed {
    words: &'static [&'static str],
    text: &'static [u8],
    /// How often the text is printed.
    times: usize,
    /// How many lines are said.
    lines: usize,
    /// How these end.
    end: &'static str,
}

const PRINTED: [Printed; 5] = [
    Printed {
        words: &["edit", "photo.xcf"],
        text: b"0.0 changed 1 1 2\n0.1 refused 0 1 99\n0.2 refused 3 6\n1.0 moved 4\n1.1 nothing to undo\n1.2 nothing to redo\n1.3 top none 4\n1.4 not top 7\n2.0 no stack 5\n2.1 outside tile\n2.2 stale none 4\n2.3 tile 4 df3f619804a92fdb4057192dc43dd748ea778adc52bc498ce80524c014b81119\n2.4 saved 4\n2.5 save fault 4\norder 0.0 0.1 0.2 1.0 1.1 1.2 1.3 1.4 2.0 2.1 2.2 2.3 2.4 2.4e 2.5 2.5e\n",
        times: 1,
        lines: 8,
        end: "call 0.1: edit 0 of its group: there is no node 99\ncall 0.2: edit 3 of its group: the rectangle is empty or reaches outside\ncall 1.0: the latest version is 4, and not the one that is named\ncall 1.1: there is nothing to undo\ncall 1.2: there is nothing to redo\ncall 1.4: an undo would undo group 7, and not the one that is named\ncall 2.0: there is no group node 5\ncall 2.1: the picture has no such tile\n",
    },
    Printed {
        words: &["view", "photo.xcf", "--cols", "2", "--rows", "2"],
        text: b"0.0 refused 0 18 3\n",
        times: 1,
        lines: 1,
        end: "call 0.0: edit 0 of its group: the content of node 3 is locked\n",
    },
    Printed {
        words: &["edit", "photo.xcf"],
        text: b"0.0 nothing to undo\n",
        times: 21,
        lines: 21,
        end: "call 0.0: there is nothing to undo\nand 1 more call did nothing\n",
    },
    Printed {
        words: &["edit", "photo.xcf"],
        text: b"0.0 refused 0 14 268435457\n",
        times: 30,
        lines: 21,
        end: "call 0.0: edit 0 of its group: the area would be 268435457 pixels\nand 10 more calls did nothing\n",
    },
    // what another command prints is not read
    Printed {
        words: &["render", "photo.xcf"],
        text: b"0.0 nothing to undo\n",
        times: 1,
        lines: 0,
        end: "",
    },
];

fn write_times<K: Sink>(sink: &mut K, text: &[u8], times: usize) -> bool {
    for _ in 0..times {
        if write_all(sink, text).is_err() {
            return false;
        }
    }
    true
}

// Whether this is said; the sink below takes seven bytes at a time.
fn is_said(alloc: Global, printed: &Printed) -> Result<bool, AllocError> {
    let below = MemorySink::new(alloc, 7, Vec::new(alloc));
    let mut sink = WatchedSink::new(alloc, printed.words, below);
    let is_written = write_times(&mut sink, printed.text, printed.times);
    let said = sink.sentences(alloc)?;
    let text = said.as_str();
    Ok(is_written && text.ends_with(printed.end) && text.lines().count() == printed.lines)
}

// The first of the texts, counted from 0, of which something else is said.
fn first_bad_text(alloc: Global) -> Result<Option<usize>, AllocError> {
    for (i, printed) in PRINTED.iter().enumerate() {
        if !is_said(alloc, printed)? {
            return Ok(Some(i));
        }
    }
    Ok(None)
}

#[test]
fn each_call_that_did_nothing_is_told(rt: HostRuntime) -> Result<(), Fail> {
    assert_eq!(rt; first_bad_text(rt.alloc())?, None);
    Ok(())
}
