//! What an event asks of its member.
use crate::payload::Payload;
use trace::What;

/// A message on its way.
#[derive(Debug, Drop)]
pub struct Message {
    /// What it is called, as its row in the trace.
    pub what: What,
    /// A number whose meaning is the harness's, as a sequence number.
    pub value: u64,
    /// What it holds, if it holds anything.
    pub payload: Option<Payload>,
}

/// What an event asks of its member: an event of the script, a timer of its own, or a message.
#[derive(Debug, Drop)]
pub enum Content {
    /// The member starts.
    Start,
    /// It starts again, by a process that knows nothing of the former one.
    Restart,
    /// The member crashes.
    Crash,
    /// The member leaves.
    Leave,
    /// A timer is over, by the number that the member gave it.
    Timer(u64),
    /// A message arrives.
    Message(Message),
}
