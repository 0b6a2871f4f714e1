// Where a switch stands in its tree.
ghost use Rattle.std.specs.Prelude.{◌≡◌};
ghost use Rattle.planner_rules.specs.Stand.{stands};
ghost use Rattle.planner.specs.Answers.{stand_of};

use super::Stand;
use crate::tree::Tree;
use topology::{Net, Refusal};

/// Level, parent's number and parent port of the switch with that UID, or the first refusal of 1 to 13.
pub fn where_stands(d: &[u8], uid: u64) -> Result<Stand, Refusal>
    ensures { stand_of result ≡ stands d.now uid }
{
    let net = Net::read(d)?;
    let s = net.find(uid)?;
    let tree = Tree::grow(net);
    Ok(Stand {
        level: tree.level(s),
        parent: tree.parent_number(s),
        port: tree.parent_port(s),
    })
}
