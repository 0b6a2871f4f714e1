// Levels, by rounds from all roots at once.
ghost use Rattle.std.specs.Prelude.{◌≡◌, ℕ, ◌<◌, Some, None, cond, length, slice_index, slice_index_or, nat_eq};
ghost use Rattle.topology_rules.specs.Format.{switch_count};
ghost use Rattle.topology_rules.specs.Net.{net_of};
ghost use Rattle.planner_rules.specs.Tree.{level as level_of};
ghost use Rattle.planner.specs.Rounds.{in_turn, settled, settled_over};

use crate::roots::roots;
use crate::wiring::Wiring;
use std::marker::Model;
use topology::Topology;

/// A net with the level of each of its switches, in a row for as many as there can be: nothing is allocated.
#[derive(Drop)]
pub struct Levels<'a> {
    net: &'a Wiring<'a>,
    level: [Option<u8>; Topology::SWITCHES],
}

impl<'a> Model for Levels<'a> {
    ghost use Rattle.std.specs.Prelude.{ℕ, List};
    ghost use Rattle.planner.specs.Rounds.{Leveled};

    ghost Value = { List ℕ };

    ghost view = { λ l. l.net.now };

    ghost invariant = { λ l. Leveled l.net.now l.level };
}

// The levels before the first round: a root has level 0, and no other switch has one yet.
fn first_levels(
    net: &Wiring<'_>,
    root: &[u8; Topology::SWITCHES],
) -> [Option<u8>; Topology::SWITCHES]
    ensures whole { length result ≡ 64 }
    ensures each { (s : ℕ) → s < switch_count net.now → slice_index_or result s None ≡ cond (nat_eq (slice_index root.now s) s) (Some 0) None }
{
    let mut level = [None; Topology::SWITCHES];
    for s in 0..net.switches() {
        if root[s] as usize == s {
            level[s] = Some(0);
        }
    }
    level
}

// In round k: a takes the level k + 1 where it has none and b has k.
fn settle(level: &mut [Option<u8>; Topology::SWITCHES], a: usize, b: usize, k: u8)
    requires { (a < 64) × (b < 64) × (k < 64) }
    ensures { level.new ≡ settled k a b level.old }
{
    if level[a].is_none() && level[b] == Some(k) {
        level[a] = Some(k + 1);
    }
}

// Every channel, in round k.
fn round(net: &Wiring<'_>, level: &mut [Option<u8>; Topology::SWITCHES], k: u8)
    requires { k < 64 }
    ensures { level.new ≡ in_turn (net_of net.now).channels (settled_over (net_of net.now) k) level.old }
{
    for ch in 0..net.channels() {
        settle(level, net.source(ch), net.target(ch), k);
    }
}

impl<'a> Levels<'a> {
    /// A net with its levels: of every switch the fewest cables to its root.
    pub fn new(net: &'a Wiring<'a>) -> Levels<'a>
        ensures { result ≡ net.now }
    {
        let root = roots(net);
        let mut level = first_levels(net, &root);
        for k in 0..net.switches() as u8 {
            if !level.contains(&Some(k)) {
                break;
            }
            round(net, &mut level, k);
        }
        Levels { net, level }
    }

    /// The net.
    pub fn net(&self) -> &'a Wiring<'a>
        ensures { result.now ≡ self.now }
    {
        self.net
    }

    /// The level of switch s.
    pub fn of(&self, s: usize) -> u8
        requires { s < switch_count self.now }
        ensures { result ≡ level_of (net_of self.now) s }
    {
        // The invariant is known only where a field is used, and the index needs it.
        let level = &self.level;
        level[s].unwrap()
    }
}
