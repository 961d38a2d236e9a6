//! What a drive reads and never changes: the scenario, its links, and the least delay between two of its members.
use links::Links;
use scenario::Scenario;

/// What stays the same in a drive.
#[derive(Drop)]
pub struct Setting<'a> {
    pub scenario: &'a Scenario,
    pub links: &'a Links,
    /// The least delay of a link from a member to another one: `None` where there is but one member.
    pub least_delay: Option<u64>,
}
