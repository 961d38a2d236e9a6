//! The kinds of warnings about a lawful scenario, such as an ack after the timeout or a path that loses all messages.

/// What a scenario is warned of, in the order in which warnings stand. A number is that of the item
/// in its list, or the member's, from 0.
#[derive(Clone, Copy, Debug, PartialEq, Eq)]
pub enum Warning {
    /// An answer can come after the timeout, though nobody is slow.
    LateAnswer,
    /// An answer by way of a helper can come after the period.
    LateRelay,
    /// The end is before a first probe can fail and its suspicion run out.
    EarlyEnd,
    /// Fewer members can accuse than are wanted, by LHA-Suspicion.
    FewAccusers,
    /// Fewer members can help than are asked.
    ManyHelpers,
    /// The common link loses every message, and nobody pushes.
    LostOnLink,
    /// A part of Lifeguard is on and a part is off.
    PartOfLifeguard,
    /// Members may begin their first period after the end.
    LongSpread,
    /// Nobody gossips, by memberlist's rules.
    NoGossip,
    /// No memberlist has this number of accusers with this `alpha`.
    OddConfirmations,
    /// Nothing happens in the run.
    QuietRun,
    /// A later path of the same two groups hides this one.
    HiddenPath(usize),
    /// A path from a group to itself that has but one member.
    LonelyPath(usize),
    /// A path that loses every message, where nobody pushes.
    LostOnPath(usize),
    /// A slow time that begins after the end.
    SlowPastEnd(usize),
    /// A slow time of a member that is down as it begins.
    SlowWhileDown(usize),
    /// An answer can come after the timeout while the member is slow.
    SlowAnswer(usize),
    /// A crash after the end, of the member of this number.
    CrashPastEnd(usize),
    /// A crash of the member of this number that comes too late to be confirmed before the end.
    CrashUnconfirmed(usize),
    /// A leave after the end.
    LeavePastEnd(usize),
    /// A cut that begins after the end.
    CutPastEnd(usize),
    /// A pause that begins after the end.
    PausePastEnd(usize),
    /// A pause of a member that is down as it begins.
    PauseWhileDown(usize),
    /// A pause that lasts longer than the least suspicion.
    LongPause(usize),
}
