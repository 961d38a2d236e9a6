//! The restarts of the rows so far, and what the lives behind them tell.
ghost use Rattle.std.specs.Prelude.{◌≡◌, ◌≢◌, ◌<◌, ◌≤◌, ◌^◌, ◌+◌, ◌++◌, ◌∷◌, ◌&&◌, ◌||◌, ◌==◌, ℕ, true, false, not, List, [], length, slice_index_or, map, IfOk, OnOk, Some, if◌then◌else◌};
ghost use Rattle.std.specs.Option.{option_or};
ghost use Rattle.trace.specs.declared.row.Row.{Row as AnyRow};
ghost use Rattle.trace_rows.specs.Rows.{Placed, has_kind, tells_of};
ghost use Rattle.trace_rows.specs.Moments.{moment_if};
ghost use Rattle.incidents.specs.Lives.{ends, weight};
ghost use Rattle.incidents.specs.Kept.{placed};
ghost use Rattle.incidents.specs.Returns.{ends_life, joins, returns_of};
ghost use Rattle.incidents.specs.OpenPlaces.{places_of, ArePlaces};
ghost use Rattle.incidents.specs.Lines.{and_later, is_holder, whom, IsLineOf, AreLinesAt, AreLinesOf, AreSeen, AreLeft};
ghost use Rattle.incidents.specs.declared.lines.Line.{Line as ALine};

use crate::lives::nobody;
use crate::open_places::OpenPlaces;
use crate::returns::Return;
use crate::rows::{ends, weight};
use base::{MemberId, Memory, Moment};
use std::alloc::{AllocError, Global};
use trace::{Row, What};
use trace_rows::has_kind;

/// A restart, and what the rows so far tell of it.
#[derive(Drop)]
pub(crate) struct Line {
    pub(crate) told: Return,
    /// Whether the life behind it goes on.
    pub(crate) is_open: bool,
    /// Of each member whether it has said in that life that the one is alive.
    pub(crate) holders: Vec<bool>,
}

impl Line {
    /// The restart that a row tells of, in a cluster of so many members.
    fn new(alloc: Global, count: usize, row: &Row) -> Result<Line, Memory>
        ensures { IfOk result (λ line. (rows : List AnyRow) → IsLineOf count line (placed rows row.now)) }
    {
        let holders = nobody(alloc, count)?;
        Ok(Line {
            told: Return {
                member: row.member,
                at: row.at,
                joined: None,
                back: None,
                holders: 0,
            },
            is_open: true,
            holders,
        })
    }

    /// Takes in what the next row tells of it.
    fn see(&mut self, row: &Row)
        ensures { (count : ℕ) (p : Placed) → count ≤ 2 ^ 16 → row.now.member < count
            → IsLineOf count self.old p → IsLineOf count self.new (and_later row.now p) }
    {
        if !self.is_open {
            return;
        }
        let member = self.told.member;
        if ends_life(row, member) {
            self.is_open = false;
            return;
        }
        self.told.joined = first_of(self.told.joined, joins(row, member), row.at);
        if !is_greeting(row, member) {
            return;
        }
        self.greet(row.member, row.at);
    }

    /// A member says that the one is alive.
    fn greet(&mut self, member: MemberId, at: Moment)
        ensures told { self.new.told ≡ record self.old.told { back = Some at; holders = self.new.told.holders } }
        ensures count { member < length self.old.holders.items → self.old.told.holders < 2 ^ 63
            → self.new.told.holders ≡ self.old.told.holders + weight (not (is_holder self.old member)) }
        ensures holders { member < length self.old.holders.items
            → (i : ℕ) → is_holder self.new i ≡ (if member == i then true else is_holder self.old i) }
        ensures room { length self.new.holders.items ≡ length self.old.holders.items }
        ensures lives { self.new.is_open ≡ self.old.is_open }
    {
        let is_new = mark(&mut self.holders, member.index());
        self.told.holders = one_more_if(self.told.holders, is_new);
        self.told.back = Some(at);
    }
}

/// Marks a member by its number, if it is one of those in the flags, and says whether it wasn't marked.
fn mark(flags: &mut Vec<bool>, number: usize) -> bool
    ensures new { number < length flags.old.items → result ≡ not (slice_index_or flags.old.items number false) }
    ensures marked { number < length flags.old.items
        → (i : ℕ) → slice_index_or flags.new.items i false ≡ (if number == i then true else slice_index_or flags.old.items i false) }
    ensures room { length flags.new.items ≡ length flags.old.items }
{
    if number >= flags.len() {
        return false;
    }
    let is_new = !flags[number];
    flags[number] = true;
    is_new
}

/// One more, if it is new.
fn one_more_if(count: usize, is_new: bool) -> usize
    ensures { count < 2 ^ 63 → result ≡ count + weight is_new }
{
    if is_new {
        count.saturating_add(1)
    } else {
        count
    }
}

/// The first of two moments, of which the second counts if it is told.
fn first_of(first: Option<Moment>, is_told: bool, at: Moment) -> Option<Moment>
    ensures { result ≡ option_or first (moment_if is_told at) }
{
    match first {
        Some(moment) => Some(moment),
        None => moment_if(is_told, at),
    }
}

/// A moment, if it is told.
fn moment_if(is_told: bool, at: Moment) -> Option<Moment>
    ensures { result ≡ moment_if is_told at }
{
    if is_told { Some(at) } else { None }
}

/// Whether a row ends a life of a member.
fn ends_life(row: &Row, member: MemberId) -> bool
    ensures { result ≡ ends_life member row.now }
{
    row.member == member && ends(row)
}

/// Whether a row tells that a member has its first table.
fn joins(row: &Row, member: MemberId) -> bool
    ensures { result ≡ joins member row.now }
{
    row.member == member && has_kind(row, What::Joined)
}

/// Whether a row tells that a member is alive.
fn is_greeting(row: &Row, member: MemberId) -> bool
    ensures { result ≡ tells_of What.Alive member row.now }
{
    if !has_kind(row, What::Alive) {
        return false;
    }
    match row.about {
        Some(about) => about == member,
        None => false,
    }
}

/// The restarts so far, in the order of the rows. A row costs what it tells of: the restarts of one
/// member whose lives go on.
#[derive(Drop)]
pub(crate) struct Lines {
    alloc: Global,
    pub(crate) lines: Vec<Line>,
    /// Where those stand whose lives go on.
    pub(crate) open_places: OpenPlaces,
}

impl Lines {
    /// No restarts, in a cluster of so many members.
    pub(crate) fn new(alloc: Global, count: usize) -> Result<Lines, Memory>
        ensures { IfOk result (λ lines. AreLinesOf lines count []) }
    {
        let open_places = OpenPlaces::new(alloc, count)?;
        Ok(Lines {
            alloc,
            lines: Vec::new(alloc),
            open_places,
        })
    }

    /// Takes in the next row.
    pub(crate) fn follow(&mut self, row: &Row) -> Result<(), Memory>
        requires kept { (count : ℕ) × (rows : List AnyRow) × AreLinesOf self.old count rows }
        requires member { row.now.member < length self.old.open_places.of_members.items }
        ensures { OnOk result ((count : ℕ) (rows : List AnyRow) → count ≤ 2 ^ 16 → row.now.member < count
            → AreLinesOf self.old count rows → AreLinesOf self.new count (rows ++ row.now ∷ [])) }
    {
        self.see(row);
        if has_kind(row, What::Restart) {
            return self.begin(row);
        }
        Ok(())
    }

    /// Takes in what the next row tells of the restarts so far.
    fn see(&mut self, row: &Row)
        requires kept { (count : ℕ) × (returns : List Placed) × AreLinesAt self.old count returns }
        requires member { row.now.member < length self.old.open_places.of_members.items }
        ensures seen { (count : ℕ) (returns : List Placed) → count ≤ 2 ^ 16 → row.now.member < count
            → AreLinesAt self.old count returns → AreLinesAt self.new count (map (and_later row.now) returns) }
        ensures room { length self.new.open_places.of_members.items ≡ length self.old.open_places.of_members.items }
    {
        if let Some(member) = whom(row) {
            self.see_own(member, row);
        }
    }

    /// The same of a row that tells something of this member's.
    fn see_own(&mut self, member: MemberId, row: &Row)
        requires kept { (count : ℕ) × (returns : List Placed) × AreLinesAt self.old count returns }
        requires member { row.now.member < length self.old.open_places.of_members.items }
        requires whom { whom row.now ≡ Some member }
        ensures seen { (count : ℕ) (returns : List Placed) → count ≤ 2 ^ 16 → row.now.member < count
            → AreLinesAt self.old count returns → AreLinesAt self.new count (map (and_later row.now) returns) }
        ensures room { length self.new.open_places.of_members.items ≡ length self.old.open_places.of_members.items }
    {
        see_open(&mut self.lines, &self.open_places, member, row);
        if !ends(row) {
            return;
        }
        self.open_places.close(row.member);
    }

    /// Adds the restart that a row tells of.
    fn begin(&mut self, row: &Row) -> Result<(), Memory>
        requires { row.now.member < length self.old.open_places.of_members.items }
        ensures { OnOk result ((count : ℕ) (rows : List AnyRow) (returns : List Placed)
            → AreLinesAt self.old count returns → AreLinesAt self.new count (returns ++ placed rows row.now ∷ [])) }
    {
        let place = self.lines.len();
        let line = Line::new(self.alloc, self.open_places.members(), row)?;
        push_line(&mut self.lines, line)?;
        self.open_places.add(row.member, place)
    }

    /// The restarts, in the order of the rows.
    pub(crate) fn returns(&self, alloc: Global) -> Result<Vec<Return>, AllocError>
        ensures { IfOk result (λ returns. (count : ℕ) (rows : List AnyRow) → AreLinesOf self.now count rows → returns.items ≡ returns_of count rows) }
    {
        told_of(alloc, self.lines.as_slice())
    }
}

/// Adds a line.
fn push_line(lines: &mut Vec<Line>, line: Line) -> Result<(), Memory>
    ensures { OnOk result (lines.new.items ≡ lines.old.items ++ line ∷ []) }
{
    match lines.push(line) {
        Ok(()) => Ok(()),
        Err(_) => Err(Memory),
    }
}

/// Takes in what a row tells of a member's restarts whose lives go on.
fn see_open(lines: &mut Vec<Line>, open_places: &OpenPlaces, member: MemberId, row: &Row)
    requires { ArePlaces (length lines.old.items) (places_of open_places.now member) }
    ensures long { length lines.new.items ≡ length lines.old.items }
    ensures seen { AreSeen row.now lines.old.items lines.new.items (places_of open_places.now member) }
    ensures left { AreLeft lines.old.items lines.new.items (places_of open_places.now member) }
{
    for nth in 0..open_places.count(member) {
        see_one(lines, open_places.place(member, nth), row);
    }
}

/// Takes in what a row tells of the restart at a place.
fn see_one(lines: &mut Vec<Line>, place: usize, row: &Row)
    requires { place < length lines.old.items }
    ensures long { length lines.new.items ≡ length lines.old.items }
    ensures here { (count : ℕ) (p : Placed) (d : ALine) → count ≤ 2 ^ 16 → row.now.member < count
        → IsLineOf count (slice_index_or lines.old.items place d) p → IsLineOf count (slice_index_or lines.new.items place d) (and_later row.now p) }
    ensures left { (k : ℕ) (d : ALine) → k ≢ place → slice_index_or lines.new.items k d ≡ slice_index_or lines.old.items k d }
{
    lines[place].see(row);
}

/// Of whose restarts a row may tell something: of those of whom it says that it is alive, or, where
/// its member has a first table or its life ends, of that one's.
fn whom(row: &Row) -> Option<MemberId>
    ensures { result ≡ whom row.now }
{
    if has_kind(row, What::Alive) {
        return row.about;
    }
    if is_of_itself(row) {
        return Some(row.member);
    }
    None
}

/// Whether a row tells of its own member: that it has a first table, or that its life ends.
fn is_of_itself(row: &Row) -> bool
    ensures { result ≡ (has_kind What.Joined row.now || ends row.now) }
{
    has_kind(row, What::Joined) || ends(row)
}

/// What is told of each restart.
fn told_of(alloc: Global, lines: &[Line]) -> Result<Vec<Return>, AllocError>
    ensures { IfOk result (λ returns. returns.items ≡ map (λ line. line.told) lines.now) }
{
    lines.iter().map(|line| line.told).collect(alloc)
}
