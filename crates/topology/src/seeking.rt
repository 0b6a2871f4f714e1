// The cable at a port.
ghost use Rattle.std.specs.Prelude.{◌≡◌, OkIff, IfErr, ◌+◌, ◌*◌, ◌<◌};
ghost use Rattle.topology.specs.declared.refusal.Reason.TheVariants.{NoCable};
ghost use Rattle.topology_rules.specs.Count.{either};
ghost use Rattle.topology_rules.specs.Format.{cable_count, ends_at};
ghost use Rattle.topology_rules.specs.Edit.{cable_of};

use super::records::Records;
use super::refusal::Reason;

// Switch and port are asked for as `pull` got them; a type of both would have no fact of its own.
impl<'a> Records<'a> {
    // Whether cable c has an end at port p of switch x.
    fn ends_at(&self, c: usize, x: usize, p: u64) -> bool
        requires { c < cable_count self.now }
        ensures { result ≡ either (ends_at self.now x p (2 * c)) (ends_at self.now x p (2 * c + 1)) }
    {
        let (one, other) = self.ends(c);
        one.is_at(x, p) || other.is_at(x, p)
    }

    // The first cable at port p of switch x, or 15.
    pub fn cable_at(&self, x: usize, p: u64) -> Result<usize, Reason>
        ensures found { OkIff result (cable_of self.now x p < cable_count self.now) (cable_of self.now x p) }
        ensures missing { IfErr result (λ r. r ≡ NoCable) }
    {
        (0..self.cables())
            .find(|&c| self.ends_at(c, x, p))
            .ok_or(Reason::NoCable)
    }
}
