//! The text's own restarts.
ghost use Rattle.plain_entries.specs.Restarts.{restart_timing, IsRestartTime};

use crate::timing::When;
use base::{MemberId, Moment};
use script_draws::{DrawFault, TextStream};
use std::alloc::Global;

/// That a member's process starts again at a moment, and whom it asks then.
#[derive(Clone, Copy, Debug)]
pub struct Restart {
    pub at: Moment,
    pub contact: Option<MemberId>,
}

/// When members' processes start again: the first at a moment, each other one `each` ticks after the one before.
#[derive(Clone, Copy, Debug)]
pub struct RestartTime {
    pub at: Moment,
    pub each: u64,
    pub contact: Option<MemberId>,
}

impl When for RestartTime {
    type Time = Restart;

    ghost timing = { restart_timing };

    ghost is_sound = { IsRestartTime };

    fn recurs(&self) -> bool {
        false
    }

    fn times(
        &self,
        alloc: Global,
        _stream: &mut TextStream,
        k: u64,
        _start: Moment,
        _room: u64,
    ) -> Result<Vec<Restart>, DrawFault> {
        let restart = Restart {
            at: Moment(self.at.ticks() + k * self.each),
            contact: self.contact,
        };
        Ok(vec![in alloc; restart]?)
    }
}
