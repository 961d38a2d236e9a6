//! Pairs a scenario with the links that are computed from it, with the proof that they fit.
ghost use Rattle.links.specs.Arrival.{AreLinksOf};

use links::Links;
use scenario::Scenario;

/// The cluster that is simulated: what its scenario says, and its links.
#[derive(Clone, Copy)]
pub struct Cluster<'a> {
    pub scenario: &'a Scenario,
    pub links: &'a Links,
    pub ghost fits: { AreLinksOf links.now scenario.now },
}
