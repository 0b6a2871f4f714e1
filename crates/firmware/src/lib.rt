//! What the controller's C firmware calls. Each answer is one number: refusal number × 2^32 + position, or 0 and what is returned.
#![tactic(auto)]

ghost use Rattle.std.specs.Prelude.{◌≡◌};
ghost use Rattle.topology_rules.specs.Check.{verdict};
ghost use Rattle.topology_rules.specs.Answers.{answered, packed};
ghost use Rattle.topology_rules.specs.Edit.{retire, pull};
ghost use Rattle.topology.specs.Reasons.{reply_of};

use topology::Refusal;

// An answer as one number.
fn packed(answer: Result<usize, Refusal>) -> u64
    ensures { result ≡ packed (reply_of answer) }
{
    match answer {
        Ok(n) => n as u64,
        Err(r) => ((u16::from(r.reason) as u64) << 32) + r.position as u64,
    }
}

#[unsafe(no_mangle)]
pub extern "C" fn udr_check(d: &[u8]) -> u64
    ensures { result ≡ packed (answered (verdict d.now) 0) }
{
    packed(topology::check(d).map(|_| 0))
}

#[unsafe(no_mangle)]
pub extern "C" fn udr_retire(d: &[u8], uid: u64, out: &mut [u8]) -> u64
    ensures answer { result ≡ packed (retire d.now uid out.old).reply }
    ensures output { out.new ≡ (retire d.now uid out.old).out }
{
    packed(topology::retire(d, uid, out))
}

#[unsafe(no_mangle)]
pub extern "C" fn udr_pull(d: &[u8], uid: u64, port: u64, out: &mut [u8]) -> u64
    ensures answer { result ≡ packed (pull d.now uid port out.old).reply }
    ensures output { out.new ≡ (pull d.now uid port out.old).out }
{
    packed(topology::pull(d, uid, port, out))
}
