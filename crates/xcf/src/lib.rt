//! XCF images for programs of one's own: open a file, edit it, look at it, make the file again.
//!
//! An [`Image`] is a document with the id that its next new node gets; [`Image::edit`] makes a group of edits, all or
//! nothing. An [`Editor`] keeps the history of an image too, so that groups can be undone. [`tile`], [`picture`] and
//! [`save`] show and write the document of either, and [`nodes`] lists its layers and groups. None of these asks for a
//! filter, a counter of steps or a shelf: who needs those goes to the crates below.
#![tactic(auto)]

mod changed;
mod editor;
mod errors;
mod group;
mod image;
mod names;
mod no_shelf;
mod opening;
mod pam;
mod planes;
mod replies;
mod showing;
mod tile_picture;
mod walking;

pub use changed::Changed;
pub use editor::Editor;
pub use errors::{NotEdited, NotGroup, NotOpened, NotShown};
pub use group::check_group;
pub use image::Image;
pub use names::Name;
pub use opening::open;
pub use pam::pam_head;
pub use planes::plane_bytes;
pub use replies::outcome;
pub use showing::{IMAGE, picture, save, tile};
pub use tile_picture::Picture;
pub use walking::nodes;
pub use xl_calls::{Edit, EditRefused, Edits, Reply};
pub use xl_doc::{Body, Bytes, Document, Layer, Mask, Mode, Node, NodeId, Plane, Rect, TileAt};
pub use xl_filters::FilterKind;
