// The channel to each switch's parent.
ghost use Rattle.std.specs.Prelude.{◌≡◌, ◌*◌, ◌<◌, IfSome};
ghost use Rattle.topology_rules.specs.Format.{cable_count};
ghost use Rattle.topology_rules.specs.Net.{net_of};
ghost use Rattle.planner_rules.specs.Tree.{preferred};
ghost use Rattle.planner.specs.Choices.{leads_up, improves, chosen_over, Channels, Finds};

use crate::levels::Levels;
use crate::wiring::Wiring;
use topology::Topology;

// Whether a channel leads one level lower.
fn leads_up(levels: &Levels<'_>, ch: usize) -> bool
    requires { ch < 2 * cable_count levels.now }
    ensures { result ≡ leads_up (net_of levels.now) ch }
{
    let net = levels.net();
    levels.of(net.target(ch)) as usize + 1 == levels.of(net.source(ch)) as usize
}

// Whether channel a is preferred to b: the lower UID at its far end, then the lower port.
fn comes_before(net: &Wiring<'_>, a: usize, b: usize) -> bool
    requires { (a < 2 * cable_count net.now) × (b < 2 * cable_count net.now) }
    ensures { result ≡ preferred (net_of net.now) a b }
{
    (net.uid(net.target(a)), net.port(a)) < (net.uid(net.target(b)), net.port(b))
}

// Whether a channel takes the place of the one kept so far.
fn improves(net: &Wiring<'_>, kept: Option<u16>, ch: usize) -> bool
    requires { (ch < 2 * cable_count net.now) × IfSome kept (λ k. k < 2 * cable_count net.now) }
    ensures { result ≡ improves (net_of net.now) kept ch }
{
    match kept {
        None => true,
        Some(other) => comes_before(net, ch, other as usize),
    }
}

// The switch that a channel leaves keeps it where it is the best so far.
fn choose(best: &mut [Option<u16>; Topology::SWITCHES], levels: &Levels<'_>, ch: usize)
    requires there { ch < 2 * cable_count levels.now }
    requires kept { Channels levels.now best.old }
    ensures { best.new ≡ chosen_over (net_of levels.now) ch best.old }
{
    let net = levels.net();
    let s = net.source(ch);
    if leads_up(levels, ch) && improves(net, best[s], ch) {
        best[s] = Some(ch as u16);
    }
}

// The channel over the parent cable of every switch, in a row for as many as there can be; none for a root.
// One pass over the channels serves all switches; a search for each switch would pass over them once per switch.
pub fn parents(levels: &Levels<'_>) -> [Option<u16>; Topology::SWITCHES]
    ensures { Finds levels.now result }
{
    let mut best = [None; Topology::SWITCHES];
    for ch in 0..levels.net().channels() {
        choose(&mut best, levels, ch);
    }
    best
}
