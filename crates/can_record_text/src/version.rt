ghost use Rattle.std.specs.Prelude.{◌≡◌, IsTrue};
ghost use Rattle.can_record_text.specs.Spelling.{first_line, is_needless, takes, takes_down, takes_fd, takes_flags, version_for};
ghost use Rattle.can_record_text.specs.Values.{HasLimit, Restarts};

use crate::needs::Needs;
use can_event::{BusConfig, MAX_LIMIT};

/// The version of the text of a record. Each record is written in one version.
#[derive(Debug, Clone, Copy, PartialEq, Eq)]
pub enum Version {
    /// The record of a bus without automatic restart.
    One,
    /// The record of a bus with automatic restart.
    Two,
    /// A record with an FD frame, or with the option for FD frames.
    Three,
    /// The record of a long run, whose limit no other version allows.
    Four,
    /// A record with a flag of an FD frame.
    Five,
    /// A record with a call that takes an interface down, or a call that is refused because its interface is down.
    Six,
}

impl Version {
    /// Returns the version for the record of this bus, whose lines have these needs.
    pub(crate) fn of(config: BusConfig, needs: Needs) -> Version
        ensures { result ≡ version_for config needs }
    {
        if config.limit > MAX_LIMIT {
            Version::Four
        } else if needs.down {
            Version::Six
        } else if needs.flags {
            Version::Five
        } else if needs.fd {
            Version::Three
        } else if config.auto_restart == 0 {
            Version::One
        } else {
            Version::Two
        }
    }

    /// Returns the first line of the text, with its LF.
    pub fn first_line(self) -> &'static [u8]
        ensures { result.now ≡ first_line self }
    {
        match self {
            Version::One => b"canbus record 1\n",
            Version::Two => b"canbus record 2\n",
            Version::Three => b"canbus record 3\n",
            Version::Four => b"canbus record 4\n",
            Version::Five => b"canbus record 5\n",
            Version::Six => b"canbus record 6\n",
        }
    }

    /// Returns whether this version has lines for FD frames and for the option for FD frames.
    fn takes_fd(self) -> bool
        ensures { result ≡ takes_fd self }
    {
        match self {
            Version::One | Version::Two => false,
            Version::Three | Version::Four | Version::Five | Version::Six => true,
        }
    }

    /// Returns whether this version has lines for FD frames with flags.
    fn takes_flags(self) -> bool
        ensures { result ≡ takes_flags self }
    {
        match self {
            Version::One | Version::Two | Version::Three => false,
            Version::Four | Version::Five | Version::Six => true,
        }
    }

    /// Returns whether this version has lines for interfaces that go down or are down.
    fn takes_down(self) -> bool
        ensures { result ≡ takes_down self }
    {
        match self {
            Version::One | Version::Two | Version::Three | Version::Five => false,
            Version::Four | Version::Six => true,
        }
    }

    /// Returns whether this version has lines for all of these needs.
    pub fn takes(self, needs: Needs) -> bool
        ensures { result ≡ takes self needs }
    {
        (!needs.fd || self.takes_fd())
            && (!needs.flags || self.takes_flags())
            && (!needs.down || self.takes_down())
    }

    /// Returns whether lines with these needs do not require this version. Version 3 is for an FD frame or the option for
    /// FD frames, version 5 for a flag of an FD frame, and version 6 for an interface that goes down or is down.
    pub fn is_needless(self, needs: Needs) -> bool
        ensures { result ≡ is_needless self needs }
    {
        match self {
            Version::One | Version::Two | Version::Four => false,
            Version::Three => !needs.fd,
            Version::Five => !needs.flags,
            Version::Six => !needs.down,
        }
    }

    /// Returns whether this version allows the limit of the bus: above 16,777,216 in version 4, and at most that in the
    /// other versions.
    pub(crate) fn limits(self, config: BusConfig) -> bool
        ensures yes { IsTrue result → HasLimit self config }
        ensures no { HasLimit self config → IsTrue result }
    {
        match self {
            Version::One | Version::Two | Version::Three | Version::Five | Version::Six => {
                config.limit <= MAX_LIMIT
            }
            Version::Four => config.limit > MAX_LIMIT,
        }
    }

    /// Returns whether this version allows the restart setting of the bus: no automatic restart in version 1, automatic
    /// restart in version 2, and either in the other versions.
    pub(crate) fn restarts(self, config: BusConfig) -> bool
        ensures yes { IsTrue result → Restarts self config }
        ensures no { Restarts self config → IsTrue result }
    {
        match self {
            Version::One => config.auto_restart == 0,
            Version::Two => config.auto_restart != 0,
            Version::Three | Version::Four | Version::Five | Version::Six => true,
        }
    }
}
