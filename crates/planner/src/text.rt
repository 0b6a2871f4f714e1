// Text as it is printed, byte after byte.
ghost use Rattle.std.specs.Prelude.{◌≡◌, [], ◌∷◌, ◌++◌, length};
ghost use Rattle.topology_rules.specs.Answers.{onto};
ghost use Rattle.planner_rules.specs.Printed.{decimal, hex};
ghost use Rattle.planner.specs.Room.{HasRoom};

use super::Plan;
use arrayvec::ArrayVec;
use std::marker::Model;

/// At most as many bytes as a plan prints, in a vector that never allocates.
#[derive(Drop)]
pub struct Text {
    bytes: ArrayVec<u8, { Plan::CHARACTERS }>,
}

impl Model for Text {
    ghost use Rattle.std.specs.Prelude.{ℕ, List};

    ghost Value = { List ℕ };

    ghost view = { λ t. t.bytes.items };
}

// Each call that writes asks for room: what is written depends on the call, so the type cannot carry it.
impl Text {
    // No byte yet.
    pub fn new() -> Text
        ensures { result ≡ [] }
    {
        Text {
            bytes: ArrayVec::new(),
        }
    }

    // One byte.
    pub fn push(&mut self, b: u8)
        requires { HasRoom self.old (b ∷ []) }
        ensures { self.new ≡ self.old ++ b ∷ [] }
    {
        self.bytes.push(b);
    }

    // The bytes w.
    pub fn push_all(&mut self, w: &[u8])
        requires { HasRoom self.old w.now }
        ensures { self.new ≡ self.old ++ w.now }
    {
        // Words have a few bytes: one after the other is faster than the library's copying of a slice.
        for b in w {
            self.push(*b);
        }
    }

    // A number in decimal digits, with no zero before them.
    pub fn decimal(&mut self, x: usize)
        requires { HasRoom self.old (decimal x) }
        ensures { self.new ≡ self.old ++ decimal x }
    {
        let mut digits = itoa::Buffer::new();
        self.push_all(digits.format(x).as_bytes());
    }

    // The lowest 12 hexadecimal digits of u, the highest first.
    pub fn hex(&mut self, u: u64)
        requires { HasRoom self.old (hex 12 u) }
        ensures { self.new ≡ self.old ++ hex 12 u }
    {
        let mut digits = [0; 12];
        hex::encode_to_slice(&u.to_be_bytes()[2..], &mut digits).unwrap();
        self.push_all(&digits);
    }

    // The text at the start of a buffer; its length.
    pub fn copy_to(&self, out: &mut [u8; Plan::CHARACTERS]) -> usize
        ensures answer { result ≡ length self.now }
        ensures output { out.new ≡ onto self.now out.old }
    {
        out[..self.bytes.len()].copy_from_slice(&self.bytes);
        self.bytes.len()
    }
}
