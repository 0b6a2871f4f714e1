// A net's UIDs and channels, each read once from the description.
ghost use Rattle.std.specs.Prelude.{◌≡◌, ℕ, ◌*◌, ◌<◌, ◌≤◌, Some, slice_get};
ghost use Rattle.topology_rules.specs.Format.{switch_count, cable_count};
ghost use Rattle.topology_rules.specs.Accepted.{Accepted};
ghost use Rattle.topology_rules.specs.Net.{net_of, target};
ghost use Rattle.planner.specs.Wired.{channel_of};

use crate::channel::Channel;
use std::marker::Model;
use topology::{Net, Topology};

// Two for each cable that there can be.
const CHANNELS: usize = 2 * Topology::CABLES;

/// A net with its UIDs and channels in rows for as many as there can be: nothing is allocated.
/// Roots, levels, parents and numbers ask for them again and again.
#[derive(Drop)]
pub struct Wiring<'a> {
    net: Net<'a>,
    uid: [u64; Topology::SWITCHES],
    channel: [Channel; CHANNELS],
}

impl<'a> Model for Wiring<'a> {
    ghost use Rattle.std.specs.Prelude.{ℕ, List};
    ghost use Rattle.planner.specs.Wired.{Wired};

    ghost Value = { List ℕ };

    ghost view = { λ w. w.net };

    ghost invariant = { λ w. Wired w.net w.uid w.channel };
}

// The UID of each switch.
fn uids(net: &Net<'_>) -> [u64; Topology::SWITCHES]
    ensures { (s : ℕ) → s < switch_count net.now → slice_get result s ≡ Some ((net_of net.now).uid s) }
{
    let mut uid = [0; Topology::SWITCHES];
    for s in 0..net.switches() {
        uid[s] = net.uid(s).unwrap();
    }
    uid
}

// Channel ch, as the description has it.
fn channel(net: &Net<'_>, ch: usize) -> Channel
    requires { ch < 2 * cable_count net.now }
    ensures { result ≡ channel_of (net_of net.now) ch }
{
    Channel {
        source: net.source(ch).unwrap() as u8,
        port: net.port(ch).unwrap() as u8,
        target: net.target(ch).unwrap() as u8,
    }
}

// Every channel.
fn channels(net: &Net<'_>) -> [Channel; CHANNELS]
    ensures { (ch : ℕ) → ch < 2 * cable_count net.now → slice_get result ch ≡ Some (channel_of (net_of net.now) ch) }
{
    let mut row = [Channel {
        source: 0,
        port: 0,
        target: 0,
    }; CHANNELS];
    for ch in 0..net.channels() {
        row[ch] = channel(net, ch);
    }
    row
}

// Switches and channels are asked for by index, by the planner alone. The clauses named `accepted` tell callers the invariant.
impl<'a> Wiring<'a> {
    /// A net's wiring.
    pub fn read(net: Net<'a>) -> Wiring<'a>
        ensures { result ≡ net.entry }
    {
        let uid = uids(&net);
        let channel = channels(&net);
        Wiring { net, uid, channel }
    }

    /// How many switches there are.
    pub fn switches(&self) -> usize
        ensures count { (result ≡ switch_count self.now) × (result ≤ 64) }
        ensures accepted { Accepted self.now }
    {
        self.net.switches()
    }

    /// How many channels there are: two for each cable.
    pub fn channels(&self) -> usize
        ensures count { (result ≡ 2 * cable_count self.now) × (result ≤ 768) }
        ensures accepted { Accepted self.now }
    {
        self.net.channels()
    }

    /// The UID of a switch.
    pub fn uid(&self, s: usize) -> u64
        requires { s < switch_count self.now }
        ensures { result ≡ (net_of self.now).uid s }
    {
        // The invariant is known only where a field is used, and the index needs it.
        let uid = &self.uid;
        uid[s]
    }

    // A channel, as it was read.
    fn channel(&self, ch: usize) -> Channel
        requires { ch < 2 * cable_count self.now }
        ensures channel { result ≡ channel_of (net_of self.now) ch }
        ensures accepted { Accepted self.now }
    {
        let channel = &self.channel;
        channel[ch]
    }

    /// The switch that a channel leaves.
    pub fn source(&self, ch: usize) -> usize
        requires { ch < 2 * cable_count self.now }
        ensures switch { (result ≡ (net_of self.now).source ch) × (result < switch_count self.now) }
        ensures accepted { Accepted self.now }
    {
        self.channel(ch).source as usize
    }

    /// The switch that a channel leads to.
    pub fn target(&self, ch: usize) -> usize
        requires { ch < 2 * cable_count self.now }
        ensures switch { (result ≡ target (net_of self.now) ch) × (result < switch_count self.now) }
        ensures accepted { Accepted self.now }
    {
        self.channel(ch).target as usize
    }

    /// The port that a channel leaves by.
    pub fn port(&self, ch: usize) -> usize
        requires { ch < 2 * cable_count self.now }
        ensures { (result ≡ (net_of self.now).out_port ch) × (result ≤ 12) }
    {
        self.channel(ch).port as usize
    }
}
