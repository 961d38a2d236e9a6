//! Which rules the members follow: those of the SWIM and Lifeguard papers in versions 1 and 2 of the format, those of
//! memberlist in version 3, and all of memberlist 0.5.0's in version 4.
ghost use Rattle.std.specs.Prelude.{◌≡◌};
ghost use Rattle.scenario.specs.Profile.{profile_of};
ghost use Rattle.scenario.specs.Setup.{is_fourth};

use crate::scenario::Scenario;
use base::Profile;
use schema::Version;

impl Scenario {
    /// By whose rules the members go: the text's version says it.
    pub fn profile(&self) -> Profile
        ensures { result ≡ profile_of self.now }
    {
        match self.version() {
            Version::One | Version::Two => Profile::Papers,
            Version::Three => Profile::Memberlist,
            Version::Four => Profile::Hashicorp,
        }
    }

    /// Whether the text is of version 4: then slow times of a member may overlap, and it may go several times.
    pub fn is_fourth(&self) -> bool
        ensures { result ≡ is_fourth self.now.version }
    {
        match self.version() {
            Version::One | Version::Two | Version::Three => false,
            Version::Four => true,
        }
    }
}
