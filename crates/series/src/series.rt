//! What is gathered of a run.
ghost use Rattle.std.specs.Prelude.{◌≡◌, ◌≢◌, ℕ, ◌+◌, ◌*◌, ◌<◌, ◌≤◌, ◌^◌, ◌&&◌, ◌||◌, ◌==◌, ◌++◌, ◌∷◌, [], true, cond, min, nat_lt, if◌then◌else◌, List, Some, None, IfSome, OnOk, OnErr, IfOk, IfErr, IsErrOf, length};
ghost use Rattle.trace.specs.declared.row.Row.{Row as AnyRow};
ghost use Rattle.trace.specs.declared.row.What.{What as AKind};
ghost use Rattle.std.specs.Option.{option_to_list};
ghost use Rattle.scenario.specs.Setup.{Setup, member_count};
ghost use Rattle.trace.specs.Text.{NamesMembers};
ghost use Rattle.series.specs.Grid.{count_at};
ghost use Rattle.reports.specs.Rows.{has_kind, tells_lost};
ghost use Rattle.series.specs.Changes.{Change as AChange, AreFlowsOf, AreOpen, CanChange};
ghost use Rattle.series.specs.Stories.{AreStoriesOf, ComesNext, CanFollow};
ghost use Rattle.series.specs.Series.{AreSeriesOf, kind_place, health_change};
ghost use Rattle.series.specs.Watched.{crash_by_end};

use crate::deaths::DeathStories;
use crate::flows::Flows;
use crate::grid::Grid;
use crate::spans::Spans;
use crate::spread::Spread;
use crate::story::Story;
use base::limits::COUNTER_LIMIT;
use base::{Fault, MemberId, Memory, Moment};
use scenario::Scenario;
use std::alloc::Global;
use trace::{Row, What};

/// The most crashes of which it is watched how others learn of them.
const WATCHED: usize = 12;

/// The most that a local health counter reaches.
const WORST_HEALTH: u64 = 16;

/// The series of the rows of a run so far.
#[derive(Drop)]
pub struct Series {
    /// How many rows came.
    rows: u64,
    /// The spans of the scenario's time.
    spans: Spans,
    /// Messages by kind and span.
    sent: Grid,
    /// Those that were lost, likewise.
    lost: Grid,
    /// How members passed from one value of the local health counter to another.
    health: Flows,
    /// What is known of each member, at its number.
    stories: Vec<Story>,
    /// How members that were up came to be declared dead.
    deaths: DeathStories,
}

impl Series {
    /// Those of no rows of a run of the scenario.
    pub fn new(alloc: Global, scenario: &Scenario) -> Result<Series, Memory>
        ensures { IfOk result (λ series. AreSeriesOf scenario.now series []) }
    {
        let mut sent = Grid::new(alloc);
        sent.make_room(13)?;
        let mut lost = Grid::new(alloc);
        lost.make_room(13)?;
        let mut health = Flows::new(alloc);
        health.make_room(scenario.members(), 17)?;
        let stories = new_stories(alloc, scenario)?;
        let deaths = DeathStories::new(alloc, scenario.members())?;
        Ok(Series {
            rows: 0,
            spans: Spans::of(scenario),
            sent,
            lost,
            health,
            stories,
            deaths,
        })
    }

    /// Adds the next row of a run of the scenario. A refusal leaves what was gathered; `CounterOverflow` comes
    /// where so many rows came that none can be counted any more.
    pub fn add(&mut self, row: &Row, _scenario: &Scenario) -> Result<(), Fault>
        requires named { NamesMembers _scenario.now row.now }
        requires gathered { (rows : List AnyRow) × AreSeriesOf _scenario.now self.old rows }
        ensures ok { OnOk result ((rows : List AnyRow) → AreSeriesOf _scenario.now self.old rows → AreSeriesOf _scenario.now self.new (rows ++ row.now ∷ [])) }
        ensures err { OnErr result ((rows : List AnyRow) → AreSeriesOf _scenario.now self.old rows → AreSeriesOf _scenario.now self.new rows) }
        ensures overflow { IsErrOf result Fault.CounterOverflow → (rows : List AnyRow) → AreSeriesOf _scenario.now self.old rows → 2 ^ 63 ≤ length rows }
        ensures causes { IfErr result (λ fault. (fault ≢ Fault.Write) × (fault ≢ Fault.ThreadLost)) }
    {
        if self.rows >= COUNTER_LIMIT {
            return Err(Fault::CounterOverflow);
        }
        let span = self.spans.span(row.at);
        let number = self.rows + 2;
        match follow_subject(&mut self.stories, row, span, number) {
            Ok(()) => {}
            Err(Memory) => return Err(Fault::Memory),
        }
        follow_message(&mut self.sent, &mut self.lost, row, span);
        follow_health(&mut self.health, row, span);
        self.deaths.follow(row, number);
        self.rows += 1;
        Ok(())
    }

    /// How many rows came.
    pub fn rows(&self) -> u64
        ensures { result ≡ self.now.rows }
    {
        self.rows
    }

    /// The spans of the run's time.
    pub fn spans(&self) -> Spans
        ensures { result ≡ self.now.spans }
    {
        self.spans
    }

    /// How many members there are.
    pub fn members(&self) -> usize
        ensures { result ≡ length self.now.stories.items }
    {
        self.stories.len()
    }

    /// How many messages of a kind were sent in a span; 0 of what is no message.
    pub fn sent(&self, kind: What, span: usize) -> u64
        requires { span < 120 }
        ensures of_kind { (place : ℕ) → kind_place kind ≡ Some place → result ≡ count_at self.now.sent place span }
        ensures none { kind_place kind ≡ None → result ≡ 0 }
    {
        match kind_place(kind) {
            Some(place) => self.sent.count(place, span),
            None => 0,
        }
    }

    /// How many of them were lost.
    pub fn lost(&self, kind: What, span: usize) -> u64
        requires { span < 120 }
        ensures of_kind { (place : ℕ) → kind_place kind ≡ Some place → result ≡ count_at self.now.lost place span }
        ensures none { kind_place kind ≡ None → result ≡ 0 }
    {
        match kind_place(kind) {
            Some(place) => self.lost.count(place, span),
            None => 0,
        }
    }

    /// How members passed from one value of the local health counter to another.
    pub fn health(&self) -> &Flows
        ensures { result.now ≡ self.now.health }
    {
        &self.health
    }

    /// What is known of each member, at its number.
    pub fn stories(&self) -> &[Story]
        ensures { result.now ≡ self.now.stories.items }
    {
        self.stories.as_slice()
    }

    /// How members that were up came to be declared dead.
    pub fn deaths(&self) -> &DeathStories
        ensures { result.now ≡ self.now.deaths }
    {
        &self.deaths
    }
}

/// What is known of the members of a scenario before any row.
fn new_stories(alloc: Global, scenario: &Scenario) -> Result<Vec<Story>, Memory>
    ensures told { IfOk result (λ stories. AreStoriesOf scenario.now stories.items []) }
    ensures all { IfOk result (λ stories. length stories.items ≡ member_count scenario.now) }
{
    let members = scenario.members();
    let mut stories = Vec::new(alloc);
    let mut crashed = 0;
    for number in 0..members {
        let crash = crash_by_end(scenario, MemberId(number as u16));
        let spread = Spread::new(alloc, watched(crash, crashed), members)?;
        stories.push(Story::new(alloc, spread))?;
        crashed += usize::from(crash.is_some());
    }
    Ok(stories)
}

/// A member's crash where it is watched, so many members before it crashing too.
fn watched(crash: Option<Moment>, before: usize) -> Option<Moment>
    ensures { result ≡ (if nat_lt before 12 then crash else None) }
{
    if before < WATCHED { crash } else { None }
}

/// When a member crashes, where it does by the scenario's end.
fn crash_by_end(scenario: &Scenario, member: MemberId) -> Option<Moment>
    requires { member < member_count scenario.now }
    ensures { result ≡ crash_by_end scenario.now member }
{
    match scenario.crash(member) {
        Some(at) if at <= scenario.end() => Some(at),
        _ => None,
    }
}

/// Takes in what a row, which stands on the line of that number, reports of the member that crashes or starts
/// again by it, or else of the one that it is about. A refusal leaves what is known.
fn follow_subject(
    stories: &mut Vec<Story>,
    row: &Row,
    span: usize,
    number: u64,
) -> Result<(), Memory>
    requires span { span < 120 }
    requires can { CanFollow row.now stories.old.items }
    ensures ok { OnOk result ((s : Setup) (rows : List AnyRow) → ComesNext s row.now span number rows → AreStoriesOf s stories.old.items rows
        → AreStoriesOf s stories.new.items (rows ++ row.now ∷ [])) }
    ensures err { OnErr result ((s : Setup) (rows : List AnyRow) → AreStoriesOf s stories.old.items rows → AreStoriesOf s stories.new.items rows) }
    ensures all { length stories.new.items ≡ length stories.old.items }
{
    if is_turn(row) {
        follow_turn(stories, row);
        return Ok(());
    }
    let Some(about) = row.about else {
        return Ok(());
    };
    let members = stories.len();
    let story = &mut stories[about.index()];
    story.make_room(row, members)?;
    story.follow(row, span, number);
    Ok(())
}

/// Takes in that the member of a row crashes or starts again by it.
fn follow_turn(stories: &mut Vec<Story>, row: &Row)
    requires can { CanFollow row.now stories.old.items }
    requires turn { (has_kind What.Crash row.now || has_kind What.Restart row.now) ≡ true }
    ensures told { (s : Setup) (rows : List AnyRow) → AreStoriesOf s stories.old.items rows → AreStoriesOf s stories.new.items (rows ++ row.now ∷ []) }
    ensures all { length stories.new.items ≡ length stories.old.items }
{
    if is_crash(row) {
        stories[row.member.index()].crash();
        return;
    }
    stories[row.member.index()].restart();
}

/// Whether a row is that of a crash or a restart.
fn is_turn(row: &Row) -> bool
    ensures { result ≡ (has_kind What.Crash row.now || has_kind What.Restart row.now) }
{
    row.what == What::Crash || row.what == What::Restart
}

/// Whether a row is that of a crash.
fn is_crash(row: &Row) -> bool
    ensures { result ≡ has_kind What.Crash row.now }
{
    row.what == What::Crash
}

/// Counts the message that a row reports, and whether it was lost.
fn follow_message(sent: &mut Grid, lost: &mut Grid, row: &Row, span: usize)
    requires span { span < 120 }
    requires sent_room { 13 * 120 ≤ length sent.old.counts.items }
    requires lost_room { 13 * 120 ≤ length lost.old.counts.items }
    requires sent_by_one { (place : ℕ) → kind_place row.now.what ≡ Some place → count_at sent.old place span < 2 ^ 63 }
    requires lost_by_one { (place : ℕ) → kind_place row.now.what ≡ Some place → count_at lost.old place span < 2 ^ 63 }
    ensures sent { (kind : AKind) (place k : ℕ) → kind_place kind ≡ Some place → k < 120
        → count_at sent.new place k ≡ count_at sent.old place k + cond (has_kind kind row.now && k == span) 1 0 }
    ensures lost { (kind : AKind) (place k : ℕ) → kind_place kind ≡ Some place → k < 120
        → count_at lost.new place k ≡ count_at lost.old place k + cond (tells_lost kind row.now && k == span) 1 0 }
    ensures sent_kept { length sent.new.counts.items ≡ length sent.old.counts.items }
    ensures lost_kept { length lost.new.counts.items ≡ length lost.old.counts.items }
{
    if let Some(place) = kind_place(row.what) {
        sent.raise(place, span);
        if row.lost {
            lost.raise(place, span);
        }
    }
}

/// Takes in what a row reports of its member's health.
fn follow_health(health: &mut Flows, row: &Row, span: usize)
    requires span { span < 120 }
    requires can { CanChange health.old row.now.member (min 16 row.now.value) }
    ensures follows { (changes : List AChange) → AreFlowsOf 17 health.old changes → AreFlowsOf 17 health.new (changes ++ option_to_list (health_change span row.now)) }
    ensures kept { (member : ℕ) → AreOpen member 17 health.old → AreOpen member 17 health.new }
{
    if row.what == What::Health {
        let value = row.value.min(WORST_HEALTH) as u8;
        health.follow(row.member, value, span);
    }
}

/// The place of a kind of message among those that are counted.
fn kind_place(kind: What) -> Option<usize>
    ensures place { result ≡ kind_place kind }
    ensures within { IfSome result (λ place. place < 13) }
{
    match kind {
        What::Join => Some(0),
        What::Welcome => Some(1),
        What::Ping => Some(2),
        What::PingReq => Some(3),
        What::Ack => Some(4),
        What::Nack => Some(5),
        What::Bye => Some(6),
        What::Gossip => Some(7),
        What::Call => Some(8),
        What::Answer => Some(9),
        What::Push => Some(10),
        What::Pull => Some(11),
        What::Reconnect => Some(12),
        _ => None,
    }
}
