// Writing a description anew without a switch or a cable.
ghost use Rattle.std.specs.Prelude.{◌≡◌, ◌+◌, ◌*◌, ◌<◌, ◌≤◌, length, MatchResult};
ghost use Rattle.topology_rules.specs.Format.{switch_count, cable_count};
ghost use Rattle.topology_rules.specs.Answers.{onto};
ghost use Rattle.topology_rules.specs.Edit.{header, switch_record, cable_record, clear};
ghost use Rattle.topology.specs.declared.refusal.Reason.TheVariants.{LittleRoom};
ghost use Rattle.topology.specs.Inside.{Written};
ghost use Rattle.topology.specs.Omitted.{cable_stays, position};
ghost use Rattle.topology.specs.Left.{switches_left, cables_left, switch_records, cable_records, left};

use super::omitted::Omitted;
use super::records::{MARK, Records};
use super::refusal::Reason;

// The mark, version 1, and the two counts.
fn header(switches: usize, cables: usize) -> [u8; 9]
    requires { (switches ≤ 64) × (cables ≤ 384) }
    ensures { result ≡ header switches cables }
{
    let [u, d, r] = *MARK;
    let [s_high, s_low] = (switches as u16).to_be_bytes();
    let [l_high, l_low] = (cables as u16).to_be_bytes();
    [u, d, r, 0, 1, s_high, s_low, l_high, l_low]
}

impl<'a> Records<'a> {
    // Whether neither end of cable c is at switch x.
    fn clear(&self, x: usize, c: usize) -> bool
        requires { c < cable_count self.now }
        ensures { result ≡ clear self.now x c }
    {
        let (one, other) = self.ends(c);
        one.switch as usize != x && other.switch as usize != x
    }

    // Switch record i as it stands.
    fn switch_record(&self, i: usize) -> &[u8]
        requires { i < switch_count self.now }
        ensures { result.now ≡ switch_record self.now i }
    {
        &self.bytes[9 + 8 * i..17 + 8 * i]
    }
}

/// What is left of a description without a switch and its cables, or without a cable.
#[derive(Drop)]
pub struct Part<'a> {
    pub records: Records<'a>,
    pub without: Omitted,
}

impl<'a> Part<'a> {
    // Whether cable c stays.
    fn keeps_cable(&self, c: usize) -> bool
        requires { c < cable_count self.now.records }
        ensures { result ≡ cable_stays self.now.records self.now.without c }
    {
        match self.without {
            Omitted::Switch(x) => self.records.clear(x, c),
            Omitted::Cable(b) => c != b,
        }
    }

    // How many switches stay. `filter().count()` proves too, but a pull from the largest sample then took 1.75 times as long
    // as plain C; with the loop it takes 0.83.
    fn switches_left(&self) -> usize
        ensures { (result ≡ length (switches_left self.now)) × (result ≤ 64) }
    {
        let mut n = 0;
        for i in 0..self.records.switches() {
            if self.without.keeps_switch(i) {
                n += 1;
            }
        }
        n
    }

    // How many cables stay, by a loop for the same reason.
    fn cables_left(&self) -> usize
        ensures { (result ≡ length (cables_left self.now)) × (result ≤ 384) }
    {
        let mut n = 0;
        for c in 0..self.records.cables() {
            if self.keeps_cable(c) {
                n += 1;
            }
        }
        n
    }

    // Cable record c as it is then.
    fn cable_record(&self, c: usize) -> [u8; 4]
        requires { c < cable_count self.now.records }
        ensures { result ≡ cable_record self.now.records (position self.now.without) c }
    {
        let (one, other) = self.records.ends(c);
        let first = self.without.position(one.switch);
        let second = self.without.position(other.switch);
        [first, one.port, second, other.port]
    }

    // The switch records that stay, from `from` on, which what stands before them decides; where they end.
    fn put_switches(&self, out: &mut [u8], from: usize) -> usize
        requires { from + 8 * length (switches_left self.now) ≤ length out.old }
        ensures { Written out.old from (switch_records self.now) out.new result }
    {
        let mut at = from;
        for i in 0..self.records.switches() {
            if self.without.keeps_switch(i) {
                out[at..at + 8].copy_from_slice(self.records.switch_record(i));
                at += 8;
            }
        }
        at
    }

    // The cable records that stay, from `from` on; where they end.
    // One function for both kinds would take two closures beside `out` and `from`, and be no plainer.
    fn put_cables(&self, out: &mut [u8], from: usize) -> usize
        requires { from + 4 * length (cables_left self.now) ≤ length out.old }
        ensures { Written out.old from (cable_records self.now) out.new result }
    {
        let mut at = from;
        for c in 0..self.records.cables() {
            if self.keeps_cable(c) {
                out[at..at + 4].copy_from_slice(&self.cable_record(c));
                at += 4;
            }
        }
        at
    }

    /// The description that is left, at the start of `out`: its length, or 16.
    pub fn write(&self, out: &mut [u8]) -> Result<usize, Reason>
        ensures room { MatchResult result (λ n. length (left self.now) ≤ length out.old) (λ r. length out.old < length (left self.now)) }
        ensures ok { MatchResult result (λ n. (n ≡ length (left self.now)) × (out.new ≡ onto (left self.now) out.old)) (λ r. (r ≡ LittleRoom) × (out.new ≡ out.old)) }
    {
        let switches = self.switches_left();
        let cables = self.cables_left();
        if out.len() < 9 + 8 * switches + 4 * cables {
            return Err(Reason::LittleRoom);
        }
        out[..9].copy_from_slice(&header(switches, cables));
        let at = self.put_switches(out, 9);
        Ok(self.put_cables(out, at))
    }
}
