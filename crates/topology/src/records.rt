// The records of a description: its bytes, with the counts read and room for what they count.
ghost use Rattle.std.specs.Prelude.{◌≡◌, nat_eq, ◌+◌, length, ◌*◌, ◌≤◌, ◌<◌, IfOk};
ghost use Rattle.topology_rules.specs.Count.{both};
ghost use Rattle.topology_rules.specs.Format.{be16, be48, switch_count, cable_count, uid_at, hosts_at};
ghost use Rattle.topology_rules.specs.Check.{mark_differs, bad_count, verdict};
ghost use Rattle.topology.specs.Reasons.{onward};
ghost use Rattle.topology.specs.Inside.{records_verdict};
ghost use Rattle.topology.specs.End.{end_at};

use super::Topology;
use super::refusal::{Reason, Refusal};
use std::marker::Model;

// The letters that a description opens with.
pub(crate) const MARK: &[u8; 3] = b"UDR";

// The mark, the version and the two counts.
const HEADER: usize = 9;

/// An end of a cable: a switch and one of its ports.
#[derive(Clone, Copy)]
pub struct End {
    pub switch: u8,
    pub port: u8,
}

impl End {
    // Whether the end is at port p of switch x. Both are widened and not cut, since any number may be asked for.
    pub fn is_at(self, x: usize, p: u64) -> bool
        ensures { result ≡ both (nat_eq self.switch x) (nat_eq self.port p) }
    {
        self.switch as usize == x && self.port as u64 == p
    }
}

/// A description's bytes, with its counts.
#[derive(Drop)]
pub struct Records<'a> {
    pub(crate) bytes: &'a [u8],
    switches: usize,
    cables: usize,
}

impl<'a> Model for Records<'a> {
    ghost use Rattle.std.specs.Prelude.{ℕ, List};
    ghost use Rattle.topology.specs.Inside.{Sized};

    ghost Value = { List ℕ };

    ghost view = { λ r. r.bytes.now };

    ghost invariant = { λ r. Sized r.bytes.now r.switches r.cables };
}

// Places are written as the rules write them: 9 bytes, then 8 a switch, then 4 a cable.

// Two bytes, the higher first.
fn two(d: &[u8], i: usize) -> u16
    requires { i + 1 < length d.now }
    ensures { result ≡ be16 d.now i }
{
    u16::from_be_bytes([d[i], d[i + 1]])
}

// Six bytes, the highest first.
fn six(d: &[u8], i: usize) -> u64
    requires { i + 5 < length d.now }
    ensures { result ≡ be48 d.now i }
{
    u64::from_be_bytes([0, 0, d[i], d[i + 1], d[i + 2], d[i + 3], d[i + 4], d[i + 5]])
}

// 2: one of the three letters differs.
fn mark_differs(d: &[u8]) -> bool
    requires { 2 < length d.now }
    ensures { result ≡ mark_differs d.now }
{
    !d.starts_with(MARK)
}

// 4: no switch, or too many.
fn bad_count(s: usize) -> bool
    ensures { result ≡ bad_count s }
{
    s == 0 || Topology::SWITCHES < s
}

// Switches and cables are asked for by index, and each function says which are there: a type for an index would have to name its description.
impl<'a> Records<'a> {
    // 1 to 6, or the records.
    pub fn read(d: &'a [u8]) -> Result<Records<'a>, Refusal>
        ensures answer { verdict d.now ≡ onward result (records_verdict d.now) }
        ensures bytes { IfOk result (λ r. r ≡ d.now) }
    {
        if d.len() < HEADER {
            return Err(Reason::Short.at(0));
        }
        if mark_differs(d) {
            return Err(Reason::Mark.at(0));
        }
        if two(d, 3) != 1 {
            return Err(Reason::Version.at(0));
        }
        let switches = two(d, 5) as usize;
        if bad_count(switches) {
            return Err(Reason::SwitchCount.at(0));
        }
        let cables = two(d, 7) as usize;
        if Topology::CABLES < cables {
            return Err(Reason::CableCount.at(0));
        }
        if d.len() != 9 + 8 * switches + 4 * cables {
            return Err(Reason::Length.at(0));
        }
        Ok(Records {
            bytes: d,
            switches,
            cables,
        })
    }

    /// How many switches there are.
    pub fn switches(&self) -> usize
        ensures { (result ≡ switch_count self.now) × (result ≤ 64) }
    {
        self.switches
    }

    /// How many cables there are.
    pub fn cables(&self) -> usize
        ensures { (result ≡ cable_count self.now) × (result ≤ 384) }
    {
        self.cables
    }

    /// The UID of switch record i.
    pub fn uid(&self, i: usize) -> u64
        requires { i < switch_count self.now }
        ensures { result ≡ uid_at self.now i }
    {
        six(self.bytes, 9 + 8 * i)
    }

    /// The host mask of switch record i.
    pub fn hosts(&self, i: usize) -> u16
        requires { i < switch_count self.now }
        ensures { result ≡ hosts_at self.now i }
    {
        two(self.bytes, 15 + 8 * i)
    }

    /// An end, counted through: cable c has the ends 2 c and 2 c + 1.
    pub fn end(&self, e: usize) -> End
        requires { e < 2 * cable_count self.now }
        ensures { result ≡ end_at self.now e }
    {
        let at = 9 + 8 * self.switches + 2 * e;
        End {
            switch: self.bytes[at],
            port: self.bytes[at + 1],
        }
    }

    /// Both ends of cable c.
    pub fn ends(&self, c: usize) -> (End, End)
        requires { c < cable_count self.now }
        ensures ends { (result.0 ≡ end_at self.now (2 * c)) × (result.1 ≡ end_at self.now (2 * c + 1)) }
        ensures few_switches { switch_count self.now ≤ 64 }
    {
        // A field is used, so that the invariant is known here.
        let _ = &self.cables;
        (self.end(2 * c), self.end(2 * c + 1))
    }
}
