//! What a member does on an event, as its harness says.
use base::MemberId;
use drive_events::Payload;
use trace::What;

/// A message to another member.
#[derive(Debug, Drop)]
pub struct Send {
    /// What it is called.
    pub what: What,
    /// Its receiver.
    pub to: MemberId,
    /// A number whose meaning is the harness's, as a sequence number.
    pub value: u64,
    /// What it holds, if it holds anything.
    pub payload: Option<Payload>,
    /// Whether it goes over a stream, on which the system sends again what is lost.
    pub stream: bool,
}

/// A timer of the member's own.
#[derive(Clone, Copy, Debug)]
pub struct Timer {
    /// The number by which it comes back.
    pub id: u64,
    /// After how many ticks.
    pub after: u64,
}

/// A row of the trace.
#[derive(Clone, Copy, Debug)]
pub struct Noted {
    /// What it records.
    pub what: What,
    /// The member that it is about, where it is about one.
    pub about: Option<MemberId>,
    /// A number whose meaning depends on what it records, as an incarnation number.
    pub value: u64,
}

/// One thing that a member does.
#[derive(Debug, Drop)]
pub enum Action {
    /// It sends a message.
    Send(Send),
    /// It sets a timer.
    Timer(Timer),
    /// It writes a row.
    Noted(Noted),
    /// It uses so many words of its stream.
    Used(u64),
    /// Its process ends. It was told to leave.
    Exit,
}
