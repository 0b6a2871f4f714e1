// What a refusal says: the reason, which has a number, and the record that it names.
ghost use Rattle.std.specs.Prelude.{◌≡◌, ◌<◌, ◌^◌, Some, ◌++◌, codes, decimal};
ghost use Rattle.topology.specs.Reasons.{number_of};
ghost use Rattle.topology.specs.Words.{words};

use std::error::Error;
use std::fmt;

/// What is wrong, one case for each refusal number.
#[derive(Clone, Copy, Debug, PartialEq, Eq)]
pub enum Reason {
    Short = 1,
    Mark,
    Version,
    SwitchCount,
    CableCount,
    Length,
    Uid,
    Hosts,
    EndSwitch,
    EndPort,
    OneSwitch,
    PortTaken,
    NoSuchUid,
    OnlySwitch,
    NoCable,
    LittleRoom,
    Unsound,
    NoSuchPlace,
    BadAddress,
    ChannelEmpty,
    PortForbidden,
    ChannelTaken,
}

/// A reason, and the position of the record that it names, or 0 as in the rules' `Verdict`.
#[derive(Clone, Copy, Debug, PartialEq, Eq)]
pub struct Refusal {
    pub reason: Reason,
    pub position: u16,
}

impl Reason {
    // Refused for this reason at record i, or at 0 where no record is named: every refusal is made the same way.
    pub(crate) fn at(self, i: usize) -> Refusal
        requires { i < 2 ^ 16 }
        ensures { result ≡ record { reason = self; position = i } }
    {
        Refusal {
            reason: self,
            position: i as u16,
        }
    }
}

// The refusal's number.
impl From<Reason> for u16 {
    ghost from_gives = { λ r n. n ≡ number_of r };

    fn from(r: Reason) -> u16 {
        r as u16
    }
}

// A refusal that names no record.
impl From<Reason> for Refusal {
    ghost from_gives = { λ r f. f ≡ record { reason = r; position = 0 } };

    fn from(r: Reason) -> Refusal {
        Refusal {
            reason: r,
            position: 0,
        }
    }
}

// What is wrong, in words.
impl fmt::Display for Reason {
    ghost output = { λ r. Some (words r) };

    fn fmt<W: fmt::Write>(&self, f: &mut fmt::Formatter<W>) -> fmt::Result {
        f.write_str(match self {
            Reason::Short => "fewer than 9 bytes",
            Reason::Mark => "it does not open with UDR",
            Reason::Version => "the version is not 1",
            Reason::SwitchCount => "no switch, or more than 64",
            Reason::CableCount => "more than 384 cables",
            Reason::Length => "the length is not 9 + 8 S + 4 L",
            Reason::Uid => "a UID of 0, or one that an earlier record has",
            Reason::Hosts => "a host at port 0 or above port 12",
            Reason::EndSwitch => "a cable end at a switch that is not there",
            Reason::EndPort => "a cable end at port 0 or above port 12",
            Reason::OneSwitch => "a cable with both ends on one switch",
            Reason::PortTaken =>
                "a cable end at a host's port, or at one that an earlier cable uses",
            Reason::NoSuchUid => "no switch has that UID",
            Reason::OnlySwitch => "it is the only switch",
            Reason::NoCable => "no cable at that port",
            Reason::LittleRoom => "the lent output is too short",
            Reason::Unsound => "the rehearsal's record is not sound",
            Reason::NoSuchPlace => "no such switch number or channel",
            Reason::BadAddress => "no good address",
            Reason::ChannelEmpty => "the channel is empty",
            Reason::PortForbidden => "the entry does not allow that port, or it has no cable",
            Reason::ChannelTaken => "the next channel is taken",
        })
    }
}

impl Error for Reason {}

// The reason in words, then the position.
impl fmt::Display for Refusal {
    ghost output = { λ r. Some (words r.reason ++ codes " at position " ++ decimal r.position) };

    fn fmt<W: fmt::Write>(&self, f: &mut fmt::Formatter<W>) -> fmt::Result {
        write!(f, "{} at position {}", self.reason, self.position)
    }
}

impl Error for Refusal {}
