//! How members that are up come to be declared dead.
ghost use Rattle.std.specs.Prelude.{◌≡◌, ℕ, ◌+◌, ◌<◌, ◌≤◌, ◌^◌, ◌&&◌, ◌==◌, nat_lt, false, ◌++◌, ◌∷◌, [], List, Some, None, IfOk, IfSome, if◌then◌else◌, length, slice_set, slice_index_or};
ghost use Rattle.reports.specs.Rows.{has_kind};
ghost use Rattle.series.specs.Lines.{line_at};
ghost use Rattle.trace.specs.declared.row.Row.{Row as AnyRow};
ghost use Rattle.series.specs.Deaths.{AreAnswersOf, AreGoneOf, AreProbesOf, AreStandingsOf, AreToldOf, CanStand, IsToldOf, answers_of, begins_death, gone_by, no_answers};

use crate::accusers::ProbeStory;
use crate::answers::Answers;
use crate::lines::{TraceLine, line_at};
use crate::standing::{Standing, is_new};
use base::{MemberId, Memory};
use std::alloc::Global;
use trace::{Row, What};

/// The most deaths that are kept.
const KEPT: usize = 20;

/// A death of a member that was up.
#[derive(Clone, Copy)]
pub struct Death {
    /// The row that declares it dead.
    pub line: TraceLine,
    /// The member.
    pub subject: MemberId,
    /// Its incarnation number in that row.
    pub number: u64,
    /// What was known of it by the rows before.
    pub standing: Standing,
}

/// The deaths of members that were up, and what is known of members that may be declared dead.
#[derive(Drop)]
pub struct DeathStories {
    /// How many deaths there are.
    count: u64,
    /// The first of them, in their order.
    told: Vec<Option<Death>>,
    /// Whether each member has crashed or left, at its number.
    gone: Vec<bool>,
    /// The last probe that each began.
    probes: Vec<Option<ProbeStory>>,
    /// What came of it.
    answers: Vec<Answers>,
    /// What is known of each.
    standings: Vec<Standing>,
}

impl DeathStories {
    ghost use Rattle.series.specs.Deaths.{AreDeathsOf, AreMembers, CanFollow};

    /// Those of no rows, where there are so many members.
    pub(crate) fn new(alloc: Global, members: usize) -> Result<DeathStories, Memory>
        ensures none { IfOk result (λ deaths. AreDeathsOf deaths []) }
        ensures room { IfOk result (AreMembers members) }
    {
        Ok(DeathStories {
            count: 0,
            told: no_deaths(alloc)?,
            gone: nobody_gone(alloc, members)?,
            probes: no_probes(alloc, members)?,
            answers: no_answers_yet(alloc, members)?,
            standings: no_standings(alloc, members)?,
        })
    }

    /// Takes in the next row, which stands on the line of that number.
    pub(crate) fn follow(&mut self, row: &Row, number: u64)
        requires can { CanFollow row.now self.old }
        ensures follows { (rows : List AnyRow) → number ≡ length rows + 2 → AreDeathsOf self.old rows → AreDeathsOf self.new (rows ++ row.now ∷ []) }
        ensures kept { (members : ℕ) → AreMembers members self.old → AreMembers members self.new }
    {
        let gone = self.gone.as_slice();
        let standings = self.standings.as_slice();
        let death = death_told(gone, standings, row, number);
        keep(&mut self.told, &mut self.count, death);
        let probes = self.probes.as_slice();
        let answers = self.answers.as_slice();
        follow_standing(&mut self.standings, probes, answers, row, number);
        follow_answers(&mut self.answers, probes, row, number);
        follow_probe(&mut self.probes, row, number);
        follow_departure(&mut self.gone, row);
    }

    /// How many deaths there are.
    pub fn count(&self) -> u64
        ensures { result ≡ self.now.count }
    {
        self.count
    }

    /// The first of them, in their order.
    pub fn firsts(&self) -> &[Option<Death>]
        ensures { result.now ≡ self.now.told.items }
    {
        self.told.as_slice()
    }
}

/// The death that a row reports, on the line of that number, where it does.
fn death_told(gone: &[bool], standings: &[Standing], row: &Row, number: u64) -> Option<Death>
    requires gone { IfSome row.now.about (λ m. m < length gone.now) }
    requires standings { IfSome row.now.about (λ m. m < length standings.now) }
    ensures { (rows : List AnyRow) → number ≡ length rows + 2 → AreGoneOf gone.now rows → AreStandingsOf standings.now rows
        → IsToldOf result (if begins_death (record { earlier = rows; row = row.now }) then Some (record { earlier = rows; row = row.now }) else None) }
{
    let Some(subject) = row.about else {
        return None;
    };
    let standing = standings[subject.index()];
    if gone[subject.index()] || !is_new(standing.declared(), What::Confirm, row) {
        return None;
    }
    Some(Death {
        line: line_at(number, row),
        subject,
        number: row.value,
        standing,
    })
}

/// Keeps a death, where there is one, and counts it.
fn keep(told: &mut Vec<Option<Death>>, count: &mut u64, death: Option<Death>)
    requires few { count.old < 2 ^ 63 }
    requires room { length told.old.items ≡ 20 }
    ensures { (rows : List AnyRow) (row : AnyRow)
        → IsToldOf death (if begins_death (record { earlier = rows; row = row }) then Some (record { earlier = rows; row = row }) else None)
        → AreToldOf told.old.items count.old rows → AreToldOf told.new.items count.new (rows ++ row ∷ []) }
{
    if death.is_none() {
        return;
    }
    put_at(told, *count, death);
    *count += 1;
}

/// Puts a death at a place, where there is one.
fn put_at(told: &mut Vec<Option<Death>>, place: u64, death: Option<Death>)
    requires room { length told.old.items ≡ 20 }
    ensures { told.new.items ≡ (if nat_lt place 20 then slice_set told.old.items place death else told.old.items) }
{
    if place < KEPT as u64 {
        told[place as usize] = death;
    }
}

/// Takes in what a row reports of the member that it is about.
fn follow_standing(
    standings: &mut Vec<Standing>,
    probes: &[Option<ProbeStory>],
    answers: &[Answers],
    row: &Row,
    number: u64,
)
    requires can { CanStand row.now standings.old.items }
    requires member { row.now.member < length probes.now }
    requires answers { row.now.member < length answers.now }
    requires about { IfSome row.now.about (λ m. m < length standings.old.items) }
    ensures follows { (rows : List AnyRow) → number ≡ length rows + 2 → AreProbesOf probes.now rows → AreAnswersOf answers.now rows → AreStandingsOf standings.old.items rows
        → AreStandingsOf standings.new.items (rows ++ row.now ∷ []) }
    ensures kept { length standings.new.items ≡ length standings.old.items }
{
    if let Some(subject) = row.about {
        let probe = probes[row.member.index()];
        let answers = answers[row.member.index()];
        let standing = &mut standings[subject.index()];
        standing.follow(row, number, probe, answers);
    }
}

/// Takes in what a row reports of the last probes of its member and of the member that it is about.
fn follow_answers(answers: &mut Vec<Answers>, probes: &[Option<ProbeStory>], row: &Row, number: u64)
    requires member { row.now.member < length answers.old.items }
    requires about { IfSome row.now.about (λ m. m < length answers.old.items) }
    requires probes { length probes.now ≡ length answers.old.items }
    ensures follows { (rows : List AnyRow) → number ≡ length rows + 2 → AreProbesOf probes.now rows → AreAnswersOf answers.old.items rows
        → AreAnswersOf answers.new.items (rows ++ row.now ∷ []) }
    ensures kept { length answers.new.items ≡ length answers.old.items }
{
    follow_answer(answers, probes, row.member, row, number);
    let Some(about) = row.about else {
        return;
    };
    if about == row.member {
        return;
    }
    follow_answer(answers, probes, about, row, number);
}

/// Takes in what a row reports of a member's last probe.
fn follow_answer(
    answers: &mut Vec<Answers>,
    probes: &[Option<ProbeStory>],
    member: MemberId,
    row: &Row,
    number: u64,
)
    requires member { member < length answers.old.items }
    requires probes { member < length probes.now }
    ensures here { (rows : List AnyRow) → number ≡ length rows + 2 → AreProbesOf probes.now rows
        → slice_index_or answers.old.items member no_answers ≡ answers_of member rows
        → slice_index_or answers.new.items member no_answers ≡ answers_of member (rows ++ row.now ∷ []) }
    ensures others { (other : ℕ) → ¬ (other ≡ member) → slice_index_or answers.new.items other no_answers ≡ slice_index_or answers.old.items other no_answers }
    ensures kept { length answers.new.items ≡ length answers.old.items }
{
    let place = member.index();
    answers[place] = answers[place].with(member, probes[place], row, number);
}

/// Takes in the probe that a row begins, where it does.
fn follow_probe(probes: &mut Vec<Option<ProbeStory>>, row: &Row, number: u64)
    requires member { row.now.member < length probes.old.items }
    ensures follows { (rows : List AnyRow) → number ≡ length rows + 2 → AreProbesOf probes.old.items rows → AreProbesOf probes.new.items (rows ++ row.now ∷ []) }
    ensures kept { length probes.new.items ≡ length probes.old.items }
{
    let place = row.member.index();
    probes[place] = begun(probes[place], row, number);
}

/// The last probe of a row's member, with that row.
fn begun(last: Option<ProbeStory>, row: &Row, number: u64) -> Option<ProbeStory>
    ensures { result ≡ (if has_kind What.Ping row.now && row.now.from == row.now.member then Some (record { ping = line_at number row.now; lost = row.now.lost; target = row.now.about; sequence = row.now.value }) else last) }
{
    if row.what == What::Ping && row.from == row.member {
        let ping = line_at(number, row);
        Some(ProbeStory {
            ping,
            lost: row.lost,
            target: row.about,
            sequence: row.value,
        })
    } else {
        last
    }
}

/// Takes in that a member crashes, leaves or starts again, where it does.
fn follow_departure(gone: &mut Vec<bool>, row: &Row)
    requires member { row.now.member < length gone.old.items }
    ensures follows { (rows : List AnyRow) → AreGoneOf gone.old.items rows → AreGoneOf gone.new.items (rows ++ row.now ∷ []) }
    ensures kept { length gone.new.items ≡ length gone.old.items }
{
    let place = row.member.index();
    gone[place] = gone_by(row, gone[place]);
}

/// Whether a row's member, which was gone or not, is gone now.
fn gone_by(row: &Row, was_gone: bool) -> bool
    ensures { result ≡ gone_by row.now was_gone }
{
    match row.what {
        What::Crash | What::Leave => true,
        What::Restart => false,
        _ => was_gone,
    }
}

/// Places for the deaths that are kept.
fn no_deaths(alloc: Global) -> Result<Vec<Option<Death>>, Memory>
    ensures all { IfOk result (λ told. length told.items ≡ 20) }
    ensures none { IfOk result (λ told. (place : ℕ) → slice_index_or told.items place None ≡ None) }
{
    let mut told = Vec::new(alloc);
    told.resize(KEPT, None)?;
    Ok(told)
}

/// A place for each of so many members, none of which is gone.
fn nobody_gone(alloc: Global, members: usize) -> Result<Vec<bool>, Memory>
    ensures all { IfOk result (λ gone. length gone.items ≡ members) }
    ensures none { IfOk result (λ gone. (member : ℕ) → slice_index_or gone.items member false ≡ false) }
{
    let mut gone = Vec::new(alloc);
    gone.resize(members, false)?;
    Ok(gone)
}

/// A place for each of so many members, none of which began a probe.
fn no_probes(alloc: Global, members: usize) -> Result<Vec<Option<ProbeStory>>, Memory>
    ensures all { IfOk result (λ probes. length probes.items ≡ members) }
    ensures none { IfOk result (λ probes. (member : ℕ) → slice_index_or probes.items member None ≡ None) }
{
    let mut probes = Vec::new(alloc);
    probes.resize(members, None)?;
    Ok(probes)
}

/// A place for each of so many members, of whose probe nothing came.
fn no_answers_yet(alloc: Global, members: usize) -> Result<Vec<Answers>, Memory>
    ensures all { IfOk result (λ answers. length answers.items ≡ members) }
    ensures none { IfOk result (λ answers. (member : ℕ) → slice_index_or answers.items member no_answers ≡ no_answers) }
{
    let mut answers = Vec::new(alloc);
    answers.resize(members, Answers::none())?;
    Ok(answers)
}

/// What is known, before any row, of each of so many members.
fn no_standings(alloc: Global, members: usize) -> Result<Vec<Standing>, Memory>
    ensures all { IfOk result (λ standings. length standings.items ≡ members) }
    ensures none { IfOk result (λ standings. AreStandingsOf standings.items []) }
{
    let mut standings = Vec::new(alloc);
    standings.resize(members, Standing::new())?;
    Ok(standings)
}
