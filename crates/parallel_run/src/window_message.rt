//! The message that a process sends another at the end of a round: which events left its window, and the least
//! moment that pends, from which the next window's bound follows.
use base::{Fault, Moment};
use member::Event;

/// What one process sends another at the end of a round.
#[derive(Drop)]
pub struct WindowMessage {
    /// The part of the process that sends it.
    pub from: usize,
    /// The part of the process that it is sent to.
    pub to: usize,
    /// The round, from 0.
    pub round: u64,
    /// The events that went out of the window for members of that part.
    pub events: Vec<Event>,
    /// What the other sent before, which is done with: its memory goes back to the thread that took it.
    pub spent: Vec<Event>,
    /// The least moment of what pends in the part after its window, or went out of it. None where there is none.
    pub least: Option<Moment>,
    /// How many rows the window wrote.
    pub rows: u64,
    /// How often the worker that sends it has slept since its message before, while it waited for others.
    pub slept: u64,
}

/// What goes from process to process.
#[derive(Drop)]
pub enum PeerMessage {
    WindowMessage(WindowMessage),
    /// The process has ended, since its worker found this fault or received it.
    Ended(Fault),
}
