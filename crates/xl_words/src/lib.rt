//! The words of a line and what they are read as: numbers, bytes in hexadecimal digits, rectangles; and why one is refused.
#![tactic(auto)]

mod cause;
mod digits;
mod kind;
mod numbers;
mod operand;
mod operands;
mod places;
mod splitting;
mod word_front;
mod words;

pub use cause::{Cause, CauseOrMemory};
pub use digits::are_colours;
pub use kind::WordKind;
pub use numbers::{number, number_below};
pub use operand::Operand;
pub use operands::Operands;
pub use places::{offset, rect, size, spot};
pub use splitting::{first_line, split_once};
pub use word_front::WordFront;
pub use words::{first_word, is_word, next_word, no_words, one_word, three_words, two_words};
