// What the planner keeps of a channel.

/// The switch and the port that a channel leaves, and the switch that it leads to.
#[derive(Clone, Copy)]
pub struct Channel {
    pub source: u8,
    pub port: u8,
    pub target: u8,
}
