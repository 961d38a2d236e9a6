//! What contracts allow on the rings of a run: messages of rounds between its processes.
use crate::of_run::OfRun;
use crate::window_message::PeerMessage;
use rtrb::Protocol;
use std::marker::PhantomData;

/// What goes over a ring from worker to worker is what the run has there.
pub struct Words<K>(PhantomData<K>);

impl<K: OfRun> Protocol<PeerMessage> for Words<K> {
    ghost use Rattle.parallel_run.specs.Messages.{AllowsTold};

    ghost allows = { AllowsTold K.basis };
}
