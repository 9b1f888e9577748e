//! The three files of a checkpoint: its meta text, the image of RAM and the boot ROM.
//!
//! A checkpoint of the name `P` is `P.json`, which says the machine's shape, how many bytes of the
//! input were taken and how long the ROM is; `P.mainram`, the bytes of RAM; and `P.bootram`, the ROM,
//! whose execution in debug mode puts back everything else. Loading changes no file, and saving writes the
//! meta text last.
#![tactic(auto)]

mod fault;
mod laws;
mod loading;
mod names;
mod saving;

pub use fault::{LoadFault, Part, SaveFault};
pub use laws::saved_is_loaded;
pub use loading::{Loaded, load};
pub use saving::save;
