//! The lines of tables, in the order of the whole.
ghost use Rattle.std.specs.Prelude.{◌≡◌, ◌<◌, ◌≤◌, ◌-◌, ◌^◌, ◌∷◌, [], All, IfErr, OnOk, length, map, take};
ghost use Rattle.std.specs.List.{flat_map};
ghost use Rattle.std.specs.Io.KnownBytes.{Appends};
ghost use Rattle.shard_merge.specs.Reasons.{IsOfSink};
ghost use Rattle.table_rows.specs.Lines.{HasLine, IsLine, Line, shard_line};
ghost use Rattle.table_merge.specs.Seeds.{in_turn, of_setting};
ghost use Rattle.table_merge.specs.Lines.{IsFull, PutsLines, resummed};
ghost use Rattle.table_merge.specs.Tables.{starts_in};

use crate::lines::{Table, starts_of_setting};
use line_sums::{cut_at, summed};
use shard_merge::JoinFault;
use std::alloc::Global;
use sweep::Gathering;
use table_rows::{LineFault, read_line};
use trace::{Sink, Stopped, put_all};

/// Puts the lines of tables, each of which has so many settings: for each setting those of each table, with their checksums of a key.
/// Their notes are gathered.
pub(crate) fn put_settings<S: Sink>(
    alloc: Global,
    key: &[u8],
    settings: usize,
    tables: &[Table<'_>],
    gathering: &mut Gathering,
    sink: &mut S,
) -> Result<(), JoinFault>
    requires full { All (IsFull settings) (map starts_in tables.now) }
    requires countable { S.failed sink.old < 2 ^ 63 }
    ensures put { OnOk result (PutsLines key.now (in_turn settings (map starts_in tables.now)) gathering.old gathering.new (S.held sink.old) (S.held sink.new)) }
    ensures same { OnOk result (S.failed sink.new ≡ S.failed sink.old) }
    ensures refused { IfErr result IsOfSink }
{
    for number in 0..settings {
        put_setting(alloc, key, settings, number, tables, gathering, sink)?;
    }
    Ok(())
}

/// Puts the lines of the setting of this number: those of each table.
fn put_setting<S: Sink>(
    alloc: Global,
    key: &[u8],
    settings: usize,
    number: usize,
    tables: &[Table<'_>],
    gathering: &mut Gathering,
    sink: &mut S,
) -> Result<(), JoinFault>
    requires full { All (IsFull settings) (map starts_in tables.now) }
    requires within { number < settings }
    requires countable { S.failed sink.old < 2 ^ 63 }
    ensures put { OnOk result (PutsLines key.now (flat_map (of_setting number) (map starts_in tables.now)) gathering.old gathering.new (S.held sink.old) (S.held sink.new)) }
    ensures same { OnOk result (S.failed sink.new ≡ S.failed sink.old) }
    ensures refused { IfErr result IsOfSink }
{
    for table in tables {
        let starts = starts_of_setting(table, settings, number);
        put_lines(alloc, key, starts, gathering, sink)?;
    }
    Ok(())
}

/// Puts the lines with which these texts begin.
fn put_lines<S: Sink>(
    alloc: Global,
    key: &[u8],
    starts: &[&str],
    gathering: &mut Gathering,
    sink: &mut S,
) -> Result<(), JoinFault>
    requires lines { All HasLine (map (λ start. start.now) starts.now) }
    requires countable { S.failed sink.old < 2 ^ 63 }
    ensures put { OnOk result (PutsLines key.now (map (λ start. start.now) starts.now) gathering.old gathering.new (S.held sink.old) (S.held sink.new)) }
    ensures same { OnOk result (S.failed sink.new ≡ S.failed sink.old) }
    ensures refused { IfErr result IsOfSink }
{
    for start in starts {
        put_line(alloc, key, *start, gathering, sink)?;
    }
    Ok(())
}

/// Puts the line with which a text begins.
fn put_line<S: Sink>(
    alloc: Global,
    key: &[u8],
    start: &str,
    gathering: &mut Gathering,
    sink: &mut S,
) -> Result<(), JoinFault>
    requires line { HasLine start.now }
    requires countable { S.failed sink.old < 2 ^ 63 }
    ensures put { OnOk result (PutsLines key.now (start.now ∷ []) gathering.old gathering.new (S.held sink.old) (S.held sink.new)) }
    ensures same { OnOk result (S.failed sink.new ≡ S.failed sink.old) }
    ensures refused { IfErr result IsOfSink }
{
    let left = match read_line(alloc, start, gathering) {
        Ok(left) => left,
        Err(LineFault::Torn) => unreachable!(),
        Err(LineFault::Memory) => return Err(JoinFault::Memory),
    };
    let line = before(start.as_bytes(), left.len());
    put_summed(alloc, key, line, sink)
}

/// What a text has before its last bytes, so many.
fn before(text: &[u8], left: usize) -> &[u8]
    requires { left ≤ length text.now }
    ensures { result.now ≡ take (length text.entry.now - left) text.entry.now }
{
    &text[..text.len() - left]
}

/// Puts a line with its checksum of a key, in place of that before its first space.
fn put_summed<S: Sink>(
    alloc: Global,
    key: &[u8],
    line: &[u8],
    sink: &mut S,
) -> Result<(), JoinFault>
    requires countable { S.failed sink.old < 2 ^ 63 }
    requires line { (l : Line) × IsLine l × (line.now ≡ shard_line l) }
    ensures put { OnOk result ((l : Line) → IsLine l → line.now ≡ shard_line l → Appends (S.held sink.old) (S.held sink.new) (shard_line (resummed key.now l))) }
    ensures same { OnOk result (S.failed sink.new ≡ S.failed sink.old) }
    ensures refused { IfErr result IsOfSink }
{
    let Some((_sum, rest)) = cut_at(b' ', line) else {
        unreachable!()
    };
    let whole = summed(alloc, key, rest)?;
    match put_all(&whole, sink) {
        Ok(()) => Ok(()),
        Err(Stopped) => Err(JoinFault::Write),
    }
}
