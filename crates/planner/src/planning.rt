// The printed plan of a description.
ghost use Rattle.std.specs.Prelude.{◌≡◌, ◌≤◌, length, take};
ghost use Rattle.topology_rules.specs.Answers.{onto};
ghost use Rattle.planner_rules.specs.Printed.{printed};

use super::Plan;
use crate::printing::{plan, refused};
use crate::text::Text;
use crate::tree::Tree;
use topology::Net;

// The plan of any bytes, or the line of their first refusal.
fn text_of(d: &[u8]) -> Text
    ensures { result ≡ printed d.now }
{
    match Net::read(d) {
        Ok(net) => plan(&Tree::grow(net)),
        Err(refusal) => refused(refusal),
    }
}

/// The plan of any bytes, or the line of their first refusal, at the start of the buffer; its length.
pub fn print(d: &[u8], out: &mut [u8; Plan::CHARACTERS]) -> usize
    ensures answer { result ≡ length (printed d.now) }
    ensures output { out.new ≡ onto (printed d.now) out.old }
    ensures whole { (result ≤ length out.new) × (result ≡ length (take result out.new)) }
{
    text_of(d).copy_to(out)
}
