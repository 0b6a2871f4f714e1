// An accepted description, read as a net: switches, and the channels over its cables.
ghost use Rattle.std.specs.Prelude.{◌≡◌, OkIff, IfOk, IfErr, SomeIff, IfSome, nat_lt, ◌+◌, ◌*◌, ◌≤◌, ◌<◌};
ghost use Rattle.topology_rules.specs.Format.{switch_count, cable_count};
ghost use Rattle.topology_rules.specs.Check.{verdict};
ghost use Rattle.topology_rules.specs.Accepted.{Accepted};
ghost use Rattle.topology_rules.specs.Net.{net_of, target, back};
ghost use Rattle.topology_rules.specs.Edit.{find};
ghost use Rattle.topology.specs.Reasons.{verdict_of};
ghost use Rattle.topology.specs.declared.refusal.Reason.TheVariants.{NoSuchUid};

use super::records::Records;
use super::refusal::{Reason, Refusal};
use std::marker::Model;

/// An accepted description.
#[derive(Drop)]
pub struct Net<'a> {
    pub(crate) records: Records<'a>,
}

impl<'a> Model for Net<'a> {
    ghost use Rattle.std.specs.Prelude.{ℕ, List};
    ghost use Rattle.topology_rules.specs.Accepted.{Accepted};

    ghost Value = { List ℕ };

    ghost view = { λ n. n.records };

    ghost invariant = { λ n. Accepted n.records };
}

// The channel the other way over the same cable.
fn back(ch: usize) -> usize
    requires { ch < 768 }
    ensures { (result ≡ back ch) × (result < 768) }
{
    if ch % 2 == 0 { ch + 1 } else { ch - 1 }
}

// Any number may be asked for. The clauses named `accepted` tell callers the invariant: they see only the bytes.
impl<'a> Net<'a> {
    /// Any bytes: the net that they describe, or the first refusal of 1 to 12.
    pub fn read(d: &'a [u8]) -> Result<Net<'a>, Refusal>
        ensures answer { verdict_of result ≡ verdict d.now }
        ensures bytes { IfOk result (λ n. n ≡ d.now) }
    {
        let records = Records::read(d)?;
        records.check_switches()?;
        records.check_cables()?;
        Ok(Net { records })
    }

    /// How many switches there are.
    pub fn switches(&self) -> usize
        ensures count { (result ≡ switch_count self.now) × (result ≤ 64) }
        ensures accepted { Accepted self.now }
    {
        self.records.switches()
    }

    /// How many channels there are: two for each cable.
    pub fn channels(&self) -> usize
        ensures count { (result ≡ 2 * cable_count self.now) × (result ≤ 768) }
        ensures accepted { Accepted self.now }
    {
        2 * self.records.cables()
    }

    // Whether there is such a channel.
    fn has_channel(&self, ch: usize) -> bool
        ensures there { result ≡ nat_lt ch (2 * cable_count self.now) }
        ensures accepted { Accepted self.now }
    {
        ch < self.channels()
    }

    /// The UID of a switch, where there is such a one.
    pub fn uid(&self, s: usize) -> Option<u64>
        ensures { SomeIff result (s < switch_count self.now) ((net_of self.now).uid s) }
    {
        if self.switches() <= s {
            return None;
        }
        Some(self.records.uid(s))
    }

    /// The switch that a channel leaves, where there is such a channel.
    pub fn source(&self, ch: usize) -> Option<usize>
        ensures switch { SomeIff result (ch < 2 * cable_count self.now) ((net_of self.now).source ch) }
        ensures there { IfSome result (λ s. s < switch_count self.now) }
        ensures accepted { Accepted self.now }
    {
        if !self.has_channel(ch) {
            return None;
        }
        Some(self.records.end(ch).switch as usize)
    }

    /// The switch that a channel leads to, where there is such a channel.
    pub fn target(&self, ch: usize) -> Option<usize>
        ensures switch { SomeIff result (ch < 2 * cable_count self.now) (target (net_of self.now) ch) }
        ensures there { IfSome result (λ s. s < switch_count self.now) }
        ensures accepted { Accepted self.now }
    {
        if !self.has_channel(ch) {
            return None;
        }
        Some(self.records.end(back(ch)).switch as usize)
    }

    /// The port that a channel leaves by, where there is such a channel.
    pub fn port(&self, ch: usize) -> Option<usize>
        ensures port { SomeIff result (ch < 2 * cable_count self.now) ((net_of self.now).out_port ch) }
        ensures of_a_cable { IfSome result (λ p. p ≤ 12) }
    {
        if !self.has_channel(ch) {
            return None;
        }
        Some(self.records.end(ch).port as usize)
    }

    /// The switch with that UID, all 48 bits compared, or 13.
    pub fn find(&self, uid: u64) -> Result<usize, Reason>
        ensures found { OkIff result (find self.now uid < switch_count self.now) (find self.now uid) }
        ensures missing { IfErr result (λ r. r ≡ NoSuchUid) }
    {
        (0..self.switches())
            .find(|&s| self.records.uid(s) == uid)
            .ok_or(Reason::NoSuchUid)
    }
}
