//! Where a machine begins: the file of a configuration with the program that it names, or a flat
//! image, is read and made into a shape, the bytes of memory and an entry.
//!
//! The faults come in the order of the work: the text of a configuration is read and checked before
//! its program is read. Reading changes no file.
#![tactic(auto)]

mod config;
mod fault;
mod image;
mod program;
mod reading;
mod start;

pub use config::config_start;
pub use fault::StartFault;
pub use image::image_start;
pub use reading::{Contents, fill, read_file};
pub use start::Start;
