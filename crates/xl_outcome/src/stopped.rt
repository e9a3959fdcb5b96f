use spec_fields::ReadRefused;
use spec_flat::FlatRefused;
use xl_printed::Rejection;
use xl_script::BadLine;

/// Why a command did not end well.
#[derive(Clone, Copy, Debug, PartialEq, Eq)]
pub enum Stopped {
    /// The source could not be read.
    SourceFault,
    /// What is audited has no head that says how long its script is, or too few or too many bytes behind it.
    BadHead,
    /// The script is refused at a line.
    BadLine(BadLine),
    /// The file could not be read, or the save of `pack` and `flatten`, or the first one of `make`, failed.
    ShelfFault,
    /// The file holds no document.
    Refused(ReadRefused),
    /// The image of the file cannot be made flat.
    NotFlattened(FlatRefused),
    /// The command's output is written, and a save failed.
    SaveFault,
    /// The verdict is written, and it is that the printed run is none of the script.
    Rejected(Rejection),
    /// The command's output could not be written: the sink has a front of it.
    SinkFault,
    /// Memory ran out.
    Memory,
}
