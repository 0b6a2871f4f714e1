// What is wrong with a cable record, and which ports the cables so far use.
ghost use Rattle.std.specs.Prelude.{◌≡◌, ◌+◌, ◌<◌, ◌≤◌};
ghost use Rattle.topology_rules.specs.Count.{bit, either};
ghost use Rattle.topology_rules.specs.Format.{switch_count, cable_count, hosts_at};
ghost use Rattle.topology_rules.specs.Check.{Verdict, cable_rule, cables_from, bad_port, bad_switches, bad_ports, one_switch, ports_taken};
ghost use Rattle.topology.specs.Reasons.{onward, verdict_of};
ghost use Rattle.topology.specs.Inside.{Ends};
ghost use Rattle.topology.specs.Used.{is_marked, Noted};

use super::Topology;
use super::records::{End, Records};
use super::refusal::{Reason, Refusal};
use super::used::Used;

fn bad_port(p: u8) -> bool
    ensures { result ≡ bad_port p }
{
    p == 0 || Topology::PORTS < p as usize
}

// That the marks are those of the first c cables is the state of the one loop below; a type for it would serve that loop alone.
impl<'a> Records<'a> {
    // 9: an end at a switch that is not there.
    fn bad_switches(&self, c: usize) -> bool
        requires { c < cable_count self.now }
        ensures { result ≡ bad_switches self.now c }
    {
        let (one, other) = self.ends(c);
        let s = self.switches();
        s <= one.switch as usize || s <= other.switch as usize
    }

    // 10: an end at no cable port.
    fn bad_ports(&self, c: usize) -> bool
        requires { c < cable_count self.now }
        ensures { result ≡ bad_ports self.now c }
    {
        let (one, other) = self.ends(c);
        bad_port(one.port) || bad_port(other.port)
    }

    // 11: both ends on one switch.
    fn one_switch(&self, c: usize) -> bool
        requires { c < cable_count self.now }
        ensures { result ≡ one_switch self.now c }
    {
        let (one, other) = self.ends(c);
        one.switch == other.switch
    }

    // Whether the port at an end has a host or is noted as used.
    fn occupied(&self, end: End, used: &Used) -> bool
        requires { (end.switch < switch_count self.now) × (end.switch < 64) × (end.port ≤ 12) }
        ensures { result ≡ either (bit (hosts_at self.now end.switch) end.port) (is_marked used.now end.switch end.port) }
    {
        (self.hosts(end.switch as usize) >> end.port) % 2 == 1 || used.has(end)
    }

    // 12: an end of cable c at a host's port or at one that an earlier cable uses.
    fn ports_taken(&self, c: usize, used: &Used) -> bool
        requires { (c < cable_count self.now) × Noted self.now c used.now × Ends self.now c }
        ensures { result ≡ ports_taken self.now c }
    {
        let (one, other) = self.ends(c);
        self.occupied(one, used) || self.occupied(other, used)
    }

    // Record c: 9, 10, 11, 12.
    fn check_cable(&self, c: usize, used: &Used) -> Result<(), Refusal>
        requires { (c < cable_count self.now) × (c < 384) × Noted self.now c used.now }
        ensures { (rest : Verdict) → cable_rule self.now c rest ≡ onward result rest }
    {
        if self.bad_switches(c) {
            return Err(Reason::EndSwitch.at(c));
        }
        if self.bad_ports(c) {
            return Err(Reason::EndPort.at(c));
        }
        if self.one_switch(c) {
            return Err(Reason::OneSwitch.at(c));
        }
        if self.ports_taken(c, used) {
            return Err(Reason::PortTaken.at(c));
        }
        Ok(())
    }

    // Notes the ports of cable c.
    fn note_ends(&self, c: usize, used: &mut Used)
        requires { (c < cable_count self.now) × Noted self.now c used.old × Ends self.now c }
        ensures { Noted self.now (c + 1) used.new }
    {
        let (one, other) = self.ends(c);
        used.mark(one);
        used.mark(other);
    }

    // 9 to 12, over the cable records in file order.
    pub fn check_cables(&self) -> Result<(), Refusal>
        ensures { verdict_of result ≡ cables_from self.now (cable_count self.now) 0 }
    {
        // Which ports the cables so far use.
        let mut used = Used::none();
        for c in 0..self.cables() {
            self.check_cable(c, &used)?;
            self.note_ends(c, &mut used);
        }
        Ok(())
    }
}
