// What the tree says of one switch.

/// A switch's level, number, and the channel to its parent.
#[derive(Clone, Copy)]
pub struct Place {
    pub level: u8,
    pub number: u8,
    pub parent: Option<u16>,
}
