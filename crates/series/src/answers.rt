//! What comes of a member's last probe: the target's ack, and what helpers were asked and answered.
ghost use Rattle.std.specs.Prelude.{◌≡◌, ◌+◌, ◌-◌, ◌<◌, ◌^◌, ◌==◌, false, ◌&&◌, ◌++◌, ◌∷◌, [], List, Some, cond, if◌then◌else◌, length};
ghost use Rattle.std.specs.Option.{option_map_or};
ghost use Rattle.series.specs.Lines.{line_at};
ghost use Rattle.series.specs.Deaths.{acks_for, answers_of, asks_for, begins_probe, helps_for, last_probe, no_answers};

use crate::accusers::ProbeStory;
use crate::lines::{TraceLine, line_at};
use base::MemberId;
use trace::{Row, What};

/// An answer, as its row says.
#[derive(Clone, Copy, Debug, PartialEq, Eq)]
pub struct Reply {
    /// The row.
    pub line: TraceLine,
    /// Whether it was lost.
    pub lost: bool,
}

/// What came of a member's last probe.
#[derive(Clone, Copy, Debug, PartialEq, Eq)]
pub struct Answers {
    /// The last ack that the target sent to the prober itself.
    pub ack: Option<Reply>,
    /// How many helpers were asked.
    pub asked: u64,
    /// How many of these requests were lost.
    pub requests_lost: u64,
    /// How many acks and nacks helpers sent.
    pub answered: u64,
    /// How many of these were lost.
    pub answers_lost: u64,
}

impl Answers {
    ghost use Rattle.trace.specs.declared.row.Row.{Row as AnyRow};

    /// Those of no probe.
    pub(crate) fn none() -> Answers
        ensures { result ≡ no_answers }
    {
        Answers {
            ack: None,
            asked: 0,
            requests_lost: 0,
            answered: 0,
            answers_lost: 0,
        }
    }

    /// Those of a member's last probe with one row more, on the line of that number. The probe is the one before the row.
    pub(crate) fn with(
        &self,
        member: MemberId,
        probe: Option<ProbeStory>,
        row: &Row,
        number: u64,
    ) -> Answers
        ensures { (rows : List AnyRow) → number ≡ length rows + 2 → probe ≡ last_probe member rows → self.now ≡ answers_of member rows
            → result ≡ answers_of member (rows ++ row.now ∷ []) }
    {
        if begins(member, row) {
            return Answers::none();
        }
        let acked = acks(member, &probe, row);
        let asks = asks(member, &probe, row);
        let helps = helps(member, &probe, row);
        let ack = last_reply(self.ack, acked, row, number);
        let asked = one_more(self.asked, asks);
        let requests_lost = one_lost(self.requests_lost, asks, row.lost);
        let answered = one_more(self.answered, helps);
        let answers_lost = one_lost(self.answers_lost, helps, row.lost);
        Answers {
            ack,
            asked,
            requests_lost,
            answered,
            answers_lost,
        }
    }
}

/// Whether a member begins a probe by a row.
pub(crate) fn begins(member: MemberId, row: &Row) -> bool
    ensures { result ≡ begins_probe member row.now }
{
    row.what == What::Ping && row.member == member && row.from == member
}

/// Whether the target of a member's probe sends it an ack.
fn acks(member: MemberId, probe: &Option<ProbeStory>, row: &Row) -> bool
    ensures { result ≡ acks_for member probe.now row.now }
{
    let Some(probe) = probe else {
        return false;
    };
    row.what == What::Ack
        && is(row.about, member)
        && is_of(probe, row)
        && is(probe.target, row.member)
}

/// Whether a member asks a helper for its probe.
fn asks(member: MemberId, probe: &Option<ProbeStory>, row: &Row) -> bool
    ensures { result ≡ asks_for member probe.now row.now }
{
    let Some(probe) = probe else {
        return false;
    };
    row.what == What::PingReq && row.member == member && is_of(probe, row)
}

/// Whether a helper answers a member's request.
fn helps(member: MemberId, probe: &Option<ProbeStory>, row: &Row) -> bool
    ensures { result ≡ helps_for member probe.now row.now }
{
    let Some(probe) = probe else {
        return false;
    };
    (row.what == What::Ack || row.what == What::Nack)
        && is(row.about, member)
        && is_of(probe, row)
        && !is(probe.target, row.member)
}

/// Whether there is a member, and it is this one.
fn is(found: Option<MemberId>, member: MemberId) -> bool
    ensures { result ≡ option_map_or (λ m. m == member) found false }
{
    match found {
        Some(found) => found == member,
        None => false,
    }
}

/// Whether a row bears a probe's sequence number.
fn is_of(probe: &ProbeStory, row: &Row) -> bool
    ensures { result ≡ (row.now.value == probe.now.sequence) }
{
    row.value == probe.sequence
}

/// The last answer, with one row more that may be one.
fn last_reply(last: Option<Reply>, is_one: bool, row: &Row, number: u64) -> Option<Reply>
    ensures { result ≡ (if is_one then Some (record { line = line_at number row.now; lost = row.now.lost }) else last) }
{
    if is_one {
        let line = line_at(number, row);
        Some(Reply {
            line,
            lost: row.lost,
        })
    } else {
        last
    }
}

/// The count, and one more where there is one.
fn one_more(count: u64, more: bool) -> u64
    ensures { count < 2 ^ 64 - 1 → result ≡ count + cond more 1 0 }
{
    if more { count.saturating_add(1) } else { count }
}

/// The count, and one more where there is one that was lost.
fn one_lost(count: u64, more: bool, lost: bool) -> u64
    ensures { count < 2 ^ 64 - 1 → result ≡ count + cond (more && lost) 1 0 }
{
    one_more(count, more && lost)
}
