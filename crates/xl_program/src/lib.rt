//! The program: the words of a command, the devices that it works on, and how it ends.
//!
//! `render FILE` writes the picture of a file to the sink, and `info FILE` its document as a line of JSON. `edit FILE`
//! reads a script from the source, makes its calls and saves on the document of a file and writes the replies to the
//! sink; the file changes by its saves alone. `make FILE --seed N` saves the document of a seed, makes the calls and
//! saves of the seed's script and writes a line that sums them up. `pack FILE` saves a file as small as it can be, and
//! `flatten FILE` one layer in the place of all nodes; each tells of it by a line. `view FILE` makes the calls of a
//! script of session 0 and writes the replies, a tile with those to its right and below; it saves nothing. `audit FILE`
//! reads a script and a printed run from the source, and writes whether an edit of the file by the script may have
//! printed it. The sessions of an edit's or a make's script are played beside each other, and beside workers; session 0
//! alone, where an edit asks for no worker, without threads. What else a command comes to is told by one line there and
//! by the status. The commands that play sessions are modules here, the others stand in `xl_commands`.
#![tactic(auto)]

mod editing;
mod host;
mod making;
mod obeying;
mod running;
mod script_runs;

pub use running::run;
pub use xl_commands::{Ended, Rejection, Stopped};
