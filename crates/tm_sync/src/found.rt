// Places of markers.

/// The place of a marker with a whole codeblock after it.
#[derive(Clone, Copy, Debug, PartialEq, Eq)]
pub struct Found {
    /// How many bits stand before the marker.
    pub place: u64,
    /// How many of the 32 bits differ from the marker, or from the inverted marker where `inverted` is set.
    pub distance: u8,
    /// Whether the 32 bits match in no way, and the place was taken since it directly follows a codeblock.
    pub bridged: bool,
    /// Whether the codeblock's bits are inverted.
    pub inverted: bool,
}

/// What stands for a place where there is none.
pub const NO_PLACE: Found = Found {
    place: 0,
    distance: 0,
    bridged: false,
    inverted: false,
};

/// What ends right before a bit: a codeblock.
#[derive(Clone, Copy, Debug, PartialEq, Eq)]
pub struct Before {
    /// Whether the codeblock's bits are inverted.
    pub inverted: bool,
    /// How many places in a row, up to this one, were bridged.
    pub bridged: u8,
}

/// What a search that looks inside codeblocks knows of their columns.
#[derive(Clone, Copy)]
pub struct Columns {
    /// The bits from each symbol of a column to the next one.
    pub stride: u32,
    /// How many wrong symbols of a column the code corrects.
    pub strength: u32,
}

/// A place whose codeblock is not whole yet.
#[derive(Clone, Copy, Debug, PartialEq, Eq)]
pub struct Awaited {
    pub found: Found,
    /// What will stand before the first bit after the codeblock.
    pub next: Before,
}

/// A search between two calls, as plain values: those that it was begun with, and what it keeps of the bits that it was
/// given.
#[derive(Clone, Copy, Debug, PartialEq, Eq)]
pub struct Paused {
    pub tolerance: u8,
    pub fly: u8,
    pub either: bool,
    pub block_bits: u32,
    pub verify: u8,
    /// The last 32 bits.
    pub received: u32,
    /// How many bits were given, and how many of them stand before the end of the last codeblock found.
    pub pushed: u64,
    pub start: u64,
    /// What stands before that end.
    pub before: Option<Before>,
    /// The first place after it, and how many bits were given after its marker.
    pub awaited: Option<Awaited>,
    pub after: u64,
}
