//! What stays the same during one window: its bound and the cluster, with the proof that each step makes later events.
ghost use Rattle.std.specs.Prelude.{◌<◌};
ghost use Rattle.std.specs.List.{AllByRecursion-prop};
ghost use Rattle.std.specs.Coded.{le_prop};
ghost use Rattle.base.specs.Run.{MakesLater};
ghost use Rattle.member.specs.Step.{step};

use crate::cluster::Cluster;
use base::Moment;

/// What every step of a window goes by.
#[derive(Drop)]
pub(crate) struct Setting<'a> {
    /// The events of earlier moments than this one are handled.
    pub(crate) bound: Moment,
    pub(crate) cluster: Cluster<'a>,
    // So a window ends, and the loop that runs it can count the events that are left.
    ghost later: { MakesLater (step cluster.scenario.now) } by { λ f g. λ i k c t. AllByRecursion-prop (λ e. k.at < e.0.at) (λ e. le_prop) (step cluster.scenario.now k c t).events (f k c t) (g k c t) i },
}
