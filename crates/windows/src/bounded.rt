//! Pairs a part with its window's bound: the window handles only the part's events before that moment.
use crate::part::Part;
use base::Moment;
use member::Event;
use worker_queue::EventQueue;

/// A part of a cluster, and how far its next window goes.
#[derive(Drop)]
pub struct Bounded<Q: EventQueue<Event>> {
    pub part: Part<Q>,
    /// The window has the part's events of earlier moments than this one.
    pub bound: Moment,
}
