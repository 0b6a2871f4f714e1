// What an edit leaves out of a description.
ghost use Rattle.std.specs.Prelude.{◌≡◌};
ghost use Rattle.topology.specs.Omitted.{switch_stays, position};

/// A switch, with the cables that end there, or a cable.
#[derive(Clone, Copy)]
pub enum Omitted {
    Switch(usize),
    Cable(usize),
}

impl Omitted {
    // Whether switch j stays.
    pub fn keeps_switch(self, j: usize) -> bool
        ensures { result ≡ switch_stays self j }
    {
        match self {
            Omitted::Switch(x) => j != x,
            Omitted::Cable(_) => true,
        }
    }

    // The position that the switch at y has then.
    pub fn position(self, y: u8) -> u8
        ensures { result ≡ position self y }
    {
        match self {
            Omitted::Switch(x) if x < y as usize => y - 1,
            _ => y,
        }
    }
}
