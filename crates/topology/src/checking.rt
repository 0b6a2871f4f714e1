// The first refusal of a description.
ghost use Rattle.std.specs.Prelude.{◌≡◌};
ghost use Rattle.topology_rules.specs.Check.{verdict};
ghost use Rattle.topology.specs.Reasons.{verdict_of};

use super::net::Net;
use super::refusal::Refusal;

/// Any bytes: accepted, or the first refusal of 1 to 12 with its position. The answer holds nothing of the bytes.
pub fn check(d: &[u8]) -> Result<(), Refusal>
    ensures { verdict_of result ≡ verdict d.now }
{
    let _net = Net::read(d)?;
    Ok(())
}
