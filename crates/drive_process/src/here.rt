//! What the handling of an event reads and never changes: its key, the scenario and its links.
ghost use Rattle.std.proofs.Props.{props};
ghost use Rattle.member.specs.Here.{IsSoundSetting, contact-prop};

use base::Key;
use links::Links;
use scenario::Scenario;

/// What stays the same while an event is handled.
#[derive(Drop)]
pub(crate) struct Here<'a> {
    /// The key of the event.
    pub(crate) key: Key,
    pub(crate) scenario: &'a Scenario,
    pub(crate) links: &'a Links,
    // The links are the scenario's, and the event is one of a run of it.
    ghost setting: { IsSoundSetting scenario.now links.now key } by { Prim.hlevel (props, contact-prop) },
}
