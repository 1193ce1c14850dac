//! Bytes from files and to writers.
//!
//! A [`Source`] gives the bytes of a file piece by piece, up to a limit; [`Counted`] is one over any reader, such as a file; and
//! [`read_all`] reads them all, or stops for one of the reasons of [`Stop`]. An [`Opener`] gives readers of files by their
//! names, and is one of [`Files`]. An [`OpenedFile`] is the source of one, with its name and a [`Watcher`] of its bytes;
//! [`source_of`] makes a source of any reader, and [`bytes_of_file`] reads a file whole. Work on a file ends with a [`Status`], or
//! stops with an [`IoStop`].
//!
//! The library's `write_all` says nothing about what a writer holds after it failed. [`write_whole`] does. [`print_line`] prints
//! the line of a value.
#![tactic(auto)]

mod counted;
mod files;
mod io_stop;
mod line;
mod opened;
mod opener;
mod reading;
mod source;
mod status;
mod stop;
mod watcher;
mod whole;

pub use counted::{Counted, LIMIT};
pub use files::{Files, bytes_of_file, source_of};
pub use io_stop::IoStop;
pub use line::print_line;
pub use opened::OpenedFile;
pub use opener::Opener;
pub use reading::{BLOCK, read_all, take_block};
pub use source::{ReadFault, Source};
pub use status::Status;
pub use stop::Stop;
pub use watcher::Watcher;
pub use whole::write_whole;
