// Which ports the cables so far use.
ghost use Rattle.std.specs.Prelude.{◌≡◌, ◌<◌, ◌≤◌, ℕ, [], length, slice_index_or};

use super::Topology;
use super::records::End;

/// A mark for each port of as many switches as there can be, port 0 with them.
#[derive(Drop)]
pub struct Used {
    marks: [[bool; 13]; Topology::SWITCHES],
    ghost rows: { length marks ≡ 64 },
    ghost row: { (x : ℕ) → x < 64 → length (slice_index_or marks x []) ≡ 13 },
}

// An end that was read may name any switch and port, so each call asks that there can be such a one.
impl Used {
    ghost use Rattle.topology.specs.Used.{is_marked, NoneMarked, MarksOne};

    pub fn none() -> Used
        ensures { NoneMarked result }
    {
        Used {
            marks: [[false; 13]; Topology::SWITCHES],
        }
    }

    // Whether the port at an end is marked.
    pub fn has(&self, end: End) -> bool
        requires { (end.switch < 64) × (end.port ≤ 12) }
        ensures { result ≡ is_marked self.now end.switch end.port }
    {
        self.marks[end.switch as usize][end.port as usize]
    }

    // Marks the port at an end.
    pub fn mark(&mut self, end: End)
        requires { (end.switch < 64) × (end.port ≤ 12) }
        ensures { MarksOne self.old self.new end.switch end.port }
    {
        self.marks[end.switch as usize][end.port as usize] = true;
    }
}
