//! The arithmetic of pixels: sixteen blend modes, and one row of pixels laid over another.
#![tactic(auto)]

mod alphas;
mod blended_rows;
mod bytes;
mod codes;
mod colours;
mod count;
mod fades;
mod fours;
mod lanes;
mod lights;
mod normal;
mod normal_rows;
mod opaque_rows;
mod pixels;
mod reciprocals;
mod rows;
mod uniform_rows;
mod words;

pub use bytes::mul;
pub use codes::{code_of, mode_of};
pub use colours::blend;
pub use count::Steps;
pub use fades::{fade_row, fade_row_by};
pub use pixels::over;
pub use rows::over_row;
pub use spec_document::{Mode, Pixel};
