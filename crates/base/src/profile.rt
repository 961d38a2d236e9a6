//! Which rules members follow where the papers on SWIM and Lifeguard differ from memberlist, and memberlist's own rules
//! from what earlier versions of the format have of them.

/// By whose rules members go, where several are known.
#[derive(Clone, Copy, Debug, PartialEq, Eq)]
pub enum Profile {
    /// Those of the papers on SWIM and Lifeguard: versions 1 and 2 of the format.
    Papers,
    /// Those of memberlist, where they decide how often a member is taken for dead: version 3.
    Memberlist,
    /// Those of memberlist 0.5.0 (HashiCorp's library), in all that others can see of a member: version 4.
    Hashicorp,
}
