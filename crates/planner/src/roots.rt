// Roots: the lowest UID of each component, found over the channels.
ghost use Rattle.std.specs.Prelude.{◌≡◌, ◌<◌, length};
ghost use Rattle.topology_rules.specs.Count.{any};
ghost use Rattle.topology_rules.specs.Format.{switch_count};
ghost use Rattle.topology_rules.specs.Net.{net_of};
ghost use Rattle.planner_rules.specs.Tree.{root as root_of};
ghost use Rattle.planner.specs.Rows.{Tells};
ghost use Rattle.planner.specs.Rounds.{Row, in_turn, lowers, lowers_over, lifted, lifted_over};

use crate::wiring::Wiring;
use topology::Topology;

// The root of a becomes that of b where that has the lower UID; whether it did.
fn lift(net: &Wiring<'_>, root: &mut [u8; Topology::SWITCHES], a: usize, b: usize) -> bool
    requires { (a < switch_count net.now) × (b < switch_count net.now) × Row (switch_count net.now) root.old }
    ensures lowers { result ≡ lowers (net_of net.now) a b root.old }
    ensures lifts { root.new ≡ lifted (net_of net.now) a b root.old }
    ensures row { Row (switch_count net.now) root.new }
{
    let here = root[a];
    let there = root[b];
    if net.uid(there as usize) < net.uid(here as usize) {
        root[a] = there;
        return true;
    }
    false
}

// Over every channel once; whether a root changed.
fn lift_all(net: &Wiring<'_>, root: &mut [u8; Topology::SWITCHES]) -> bool
    requires { Row (switch_count net.now) root.old }
    ensures changes { result ≡ any (net_of net.now).channels (lowers_over (net_of net.now) root.old) }
    ensures lifts { root.new ≡ in_turn (net_of net.now).channels (lifted_over (net_of net.now)) root.old }
    ensures row { Row (switch_count net.now) root.new }
{
    let mut changed = false;
    for ch in 0..net.channels() {
        changed |= lift(net, root, net.source(ch), net.target(ch));
    }
    changed
}

// Each switch is its own root. A row has an entry for each switch that there can be, as nothing is allocated.
fn own_roots(net: &Wiring<'_>) -> [u8; Topology::SWITCHES]
    ensures { (length result ≡ 64) × Tells (switch_count net.now) result (λ s. s) }
{
    let mut root = [0; Topology::SWITCHES];
    for s in 0..net.switches() {
        root[s] = s as u8;
    }
    root
}

// The root of every switch: the lowest UID of its component.
pub fn roots(net: &Wiring<'_>) -> [u8; Topology::SWITCHES]
    ensures { Tells (switch_count net.now) result (root_of (net_of net.now)) }
{
    let mut root = own_roots(net);
    for _pass in 0..net.switches() {
        if !lift_all(net, &mut root) {
            break;
        }
    }
    root
}
