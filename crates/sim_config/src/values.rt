//! The values that the two texts stand for.

use crate::name::Name;

/// The shape of a machine.
#[derive(Clone, Copy, Debug, PartialEq, Eq)]
pub struct Shape {
    /// How many harts it has.
    pub harts: u8,
    /// The length of its RAM in bytes.
    pub ram: u64,
    /// How many steps a hart makes in a turn.
    pub slice: u16,
    /// The address of the host window, or 0 for none.
    pub tohost: u64,
}

/// What a configuration says.
#[derive(Debug, PartialEq, Eq, Drop)]
pub struct Config {
    /// How many harts the machine has.
    pub harts: u8,
    /// The length of RAM in bytes.
    pub ram: u64,
    /// How many steps a hart makes in a turn.
    pub slice: u16,
    /// The name of the program's file.
    pub program: Name,
    /// The address of the host window, 0 for none, where the key is there.
    pub tohost: Option<u64>,
}

/// What a meta text says of the checkpoint that it goes with.
#[derive(Clone, Copy, Debug, PartialEq, Eq)]
pub struct Meta {
    /// The shape of the machine.
    pub shape: Shape,
    /// The length of the boot ROM in bytes.
    pub rom: u64,
    /// How many bytes of the input the console's queue has taken.
    pub taken: u64,
    /// The version of the text.
    pub version: u64,
}
