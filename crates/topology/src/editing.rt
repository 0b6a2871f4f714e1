// Finding and retiring a switch, and pulling a cable.
ghost use Rattle.std.specs.Prelude.{◌≡◌};
ghost use Rattle.topology_rules.specs.Edit.{find_reply, retire, pull};
ghost use Rattle.topology.specs.Reasons.{reply_of};

use super::net::Net;
use super::omitted::Omitted;
use super::refusal::{Reason, Refusal};
use super::writing::Part;

/// Where the switch with that UID stands, or the first refusal of 1 to 13.
pub fn find(d: &[u8], uid: u64) -> Result<u16, Refusal>
    ensures { reply_of result ≡ find_reply d.now uid }
{
    let net = Net::read(d)?;
    let x = net.find(uid)?;
    Ok(x as u16)
}

/// The description without the switch of that UID and its cables, written at the start of `out`: its length, or the first refusal of 1 to 14 and 16.
pub fn retire(d: &[u8], uid: u64, out: &mut [u8]) -> Result<usize, Refusal>
    ensures answer { reply_of result ≡ (retire d.now uid out.old).reply }
    ensures output { out.new ≡ (retire d.now uid out.old).out }
{
    let net = Net::read(d)?;
    let x = net.find(uid)?;
    if net.switches() == 1 {
        return Err(Reason::OnlySwitch.at(0));
    }
    let part = Part {
        records: net.records,
        without: Omitted::Switch(x),
    };
    Ok(part.write(out)?)
}

/// The description without the cable at that UID and port, written at the start of `out`: its length, or the first refusal of 1 to 13, 15 and 16.
pub fn pull(d: &[u8], uid: u64, port: u64, out: &mut [u8]) -> Result<usize, Refusal>
    ensures answer { reply_of result ≡ (pull d.now uid port out.old).reply }
    ensures output { out.new ≡ (pull d.now uid port out.old).out }
{
    let net = Net::read(d)?;
    let x = net.find(uid)?;
    let c = net.records.cable_at(x, port)?;
    let part = Part {
        records: net.records,
        without: Omitted::Cable(c),
    };
    Ok(part.write(out)?)
}
