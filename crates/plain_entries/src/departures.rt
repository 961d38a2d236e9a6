//! Crashes and leaves, and the restarts of those that are back.
ghost use Rattle.std.specs.Prelude.{◌≡◌, ◌≤◌, ◌++◌, ◌^◌, map, All, IfOk, OnOk, OnErr, Err, Some};
ghost use Rattle.plain_entries.specs.Departures.{contact_of, departure_timing, gone_at, returns_of, CanReturn, IsDepartureTime};

use crate::plain::Plain;
use crate::restarts::Restart;
use crate::timing::When;
use base::{MemberId, Moment};
use script_draws::{DrawFault, Recurrence, TextStream, moments};
use std::alloc::Global;

/// That a process starts again: so many ticks later, by asking a member; where none is named, the first of the text
/// that isn't the one itself.
#[derive(Clone, Copy, Debug)]
pub struct Back {
    pub after: u64,
    pub contact: Option<MemberId>,
}

/// That a member crashes or leaves at a moment, and whether it is back.
#[derive(Clone, Copy, Debug)]
pub struct Departure {
    pub at: Moment,
    pub back: Option<Back>,
}

/// When members crash or leave.
#[derive(Clone, Copy, Debug)]
pub enum DepartureTime {
    /// The first of them at a moment, each other one `each` ticks after the one before.
    Once {
        at: Moment,
        each: u64,
        back: Option<Back>,
    },
    /// Again and again, each by itself.
    Again {
        recurrence: Recurrence,
        back: Back,
    },
}

impl When for DepartureTime {
    type Time = Departure;

    ghost timing = { departure_timing };

    ghost is_sound = { IsDepartureTime };

    fn recurs(&self) -> bool {
        matches!(self, DepartureTime::Again { .. })
    }

    fn times(
        &self,
        alloc: Global,
        stream: &mut TextStream,
        k: u64,
        start: Moment,
        room: u64,
    ) -> Result<Vec<Departure>, DrawFault> {
        match *self {
            DepartureTime::Once { at, each, back } => {
                let departure = Departure {
                    at: Moment(at.ticks() + k * each),
                    back,
                };
                Ok(vec![in alloc; departure]?)
            }
            DepartureTime::Again { recurrence, back } => {
                let moments = moments(alloc, stream, recurrence, back.after, start.ticks(), room)?;
                departures_at(alloc, moments.as_slice(), &back)
            }
        }
    }
}

/// Departures at these moments, each of them back.
fn departures_at(alloc: Global, moments: &[u64], back: &Back) -> Result<Vec<Departure>, DrawFault>
    ensures made { IfOk result (λ made. made.items ≡ map (gone_at (Some back.now)) moments.now) }
    ensures memory { OnErr result (result ≡ Err DrawFault.Memory) }
{
    let mut made = Vec::new(alloc);
    for moment in moments {
        made.push(Departure {
            at: Moment(*moment),
            back: Some(*back),
        })?;
    }
    Ok(made)
}

/// Adds the restarts of those that are back.
pub(crate) fn add_returns(
    restarts: &mut Vec<Plain<Restart>>,
    departures: &[Plain<Departure>],
) -> Result<(), DrawFault>
    requires { All CanReturn departures.now }
    ensures made { OnOk result (restarts.new.items ≡ restarts.old.items ++ returns_of departures.now) }
    ensures memory { OnErr result (result ≡ Err DrawFault.Memory) }
{
    for gone in departures {
        if let Some(back) = gone.time.back {
            restarts.push(Plain {
                entry: gone.entry,
                member: gone.member,
                time: Restart {
                    at: Moment(gone.time.at.ticks() + back.after),
                    contact: Some(contact(back.contact, gone.member)),
                },
                again: gone.again,
            })?;
        }
    }
    Ok(())
}

/// Whom a member asks that is back.
fn contact(named: Option<MemberId>, member: MemberId) -> MemberId
    ensures { result ≡ contact_of named member }
{
    match named {
        Some(contact) => contact,
        None => MemberId(if member.0 == 0 { 1 } else { 0 }),
    }
}
