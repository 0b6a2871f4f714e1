// What is wrong with a switch record.
ghost use Rattle.std.specs.Prelude.{◌≡◌, ◌<◌, ◌≤◌, nat_eq};
ghost use Rattle.topology_rules.specs.Count.{any};
ghost use Rattle.topology_rules.specs.Format.{switch_count, uid_at};
ghost use Rattle.topology_rules.specs.Check.{Verdict, switch_rule, switches_from, bad_uid, bad_hosts};
ghost use Rattle.topology.specs.Reasons.{onward};

use super::records::Records;
use super::refusal::{Reason, Refusal};

impl<'a> Records<'a> {
    // Whether one of the first i records has the UID u, all 48 bits.
    fn repeated(&self, i: usize, u: u64) -> bool
        requires { i ≤ switch_count self.now }
        ensures { result ≡ any i (λ j. nat_eq (uid_at self.now j) u) }
    {
        (0..i).any(|j| self.uid(j) == u)
    }

    // 7: no UID, or one that an earlier record has.
    fn bad_uid(&self, i: usize) -> bool
        requires { i < switch_count self.now }
        ensures { result ≡ bad_uid self.now i }
    {
        let u = self.uid(i);
        u == 0 || self.repeated(i, u)
    }

    // 8: a host at port 0 or above port 12.
    fn bad_hosts(&self, i: usize) -> bool
        requires { i < switch_count self.now }
        ensures { result ≡ bad_hosts self.now i }
    {
        let h = self.hosts(i);
        h % 2 == 1 || 8192 <= h
    }

    // Record i: 7 before 8.
    fn check_switch(&self, i: usize) -> Result<(), Refusal>
        requires { (i < switch_count self.now) × (i < 64) }
        ensures { (rest : Verdict) → switch_rule self.now i rest ≡ onward result rest }
    {
        if self.bad_uid(i) {
            return Err(Reason::Uid.at(i));
        }
        if self.bad_hosts(i) {
            return Err(Reason::Hosts.at(i));
        }
        Ok(())
    }

    // 7 and 8, over the switch records in file order.
    pub fn check_switches(&self) -> Result<(), Refusal>
        ensures { (rest : Verdict) → switches_from self.now (switch_count self.now) 0 rest ≡ onward result rest }
    {
        for i in 0..self.switches() {
            self.check_switch(i)?;
        }
        Ok(())
    }
}
