//! Why a command ends without doing what it was asked for, and what the user then sees.
ghost use Rattle.std.specs.Prelude.{◌≡◌, ◌≤◌, ◌++◌, Some, OnOk, codes};
ghost use Rattle.std.specs.Io.KnownBytes.{Appends};
ghost use Rattle.std.specs.Fmt.{WritesOnOk};
ghost use Rattle.shown_names.specs.Shown.{shown_name};
ghost use Rattle.command_line.specs.Failures.{status_of, message_of, failure_line, fault_number, is_silent, division_number, setting_swept_keys, shard_message};

use crate::answers::{DriveStop, is_closed, stop_status, write_stop};
use base::Fault;
use scenario::DivisionFault;
use shown_names::write_name;
use std::io::Write;
use std::{fmt, io};

/// Why files aren't the shards of one sweep.
#[derive(Clone, Copy, Debug, PartialEq, Eq)]
pub enum ShardFault<'a> {
    /// The file of this name is no shard.
    NoShard(&'a str),
    /// It is a shard of another sweep than the first.
    Other(&'a str),
    /// It is a shard that another file is.
    Doubled(&'a str),
    /// It is a shard that isn't whole.
    Torn(&'a str),
    /// It is a shard of an earlier version, whose lines have no checksums.
    Older(&'a str),
    /// No file is the shard of this number.
    Missing(u64),
}

/// Why a command ends without doing what it was asked for.
#[derive(Debug, Drop, PartialEq, Eq)]
pub enum Failure<'a> {
    /// The file of this name can't be read or made.
    File(&'a str),
    /// The words of the command line are no command.
    Usage,
    /// The words ask for the scenario of a preset that there isn't.
    Preset,
    /// A sweep sets a key of an item of a list that the scenario's text hasn't, or has more than once: the key's name.
    NoItem { key: String },
    /// The scenario breaks this rule.
    Rule(u8),
    /// The scenario that was to be explained breaks this rule; standard output has its mistakes.
    Mistaken(u8),
    /// A setting of a sweep breaks this rule: the scenario with these choices, each `KEY=V`, with spaces between
    /// them. There are none where the sweep sets nothing.
    Setting { rule: u8, swept_keys: String },
    /// The files that were to be joined aren't the shards of one sweep.
    Shards(ShardFault<'a>),
    /// What was said of workers is no number of them.
    Workers,
    /// There is no such division of the members.
    Division(DivisionFault),
    /// The run was refused.
    Run(Fault),
    /// Memory was refused outside a run.
    Memory,
    /// A drive was stopped.
    Drive(DriveStop),
    /// Standard output took less than it was given.
    Output,
}

impl Failure<'_> {
    /// The exit status that a command ends with.
    pub fn status(&self) -> u8
        ensures { result ≡ status_of self.now }
    {
        match self {
            Failure::File(_) | Failure::Output => 1,
            Failure::Usage | Failure::Preset | Failure::NoItem { .. } => 2,
            Failure::Rule(_)
            | Failure::Mistaken(_)
            | Failure::Setting { .. }
            | Failure::Shards(_) => 3,
            Failure::Workers | Failure::Division(_) => 4,
            Failure::Run(_) | Failure::Memory => 5,
            Failure::Drive(stop) => stop_status(stop),
        }
    }
}

/// The number by which users know a fault of a run.
fn fault_number(fault: Fault) -> u8
    ensures { result ≡ fault_number fault }
{
    match fault {
        Fault::Memory => 1,
        Fault::CounterOverflow => 2,
        Fault::Write => 3,
        Fault::ThreadLost => 4,
    }
}

/// The number by which users know a fault of a division.
fn division_number(fault: DivisionFault) -> u8
    ensures { result ≡ division_number fault }
{
    match fault {
        DivisionFault::Length => 1,
        DivisionFault::PartNumber => 2,
        DivisionFault::Parts => 3,
    }
}

impl fmt::Display for Failure<'_> {
    // A failure of standard output has a message for programmers alone: no line reports it.
    ghost output = { λ failure. Some (message_of failure) };

    fn fmt<W: fmt::Write>(&self, f: &mut fmt::Formatter<W>) -> fmt::Result {
        match self {
            Failure::File(name) => {
                f.write_str("file ")?;
                write_name(f, name)
            }
            Failure::Usage => f.write_str("usage"),
            Failure::Preset => f.write_str(
                "usage: the presets are local, lan, wan, serf, serf-wan, consul, consul-wan and swim",
            ),
            Failure::NoItem { key } => write!(f, "usage: no item of {key}"),
            Failure::Rule(rule) | Failure::Mistaken(rule) => write!(f, "scenario rule {rule}"),
            Failure::Setting { rule, swept_keys } => {
                write!(f, "scenario rule {rule}")?;
                write_swept_keys(f, swept_keys)
            }
            Failure::Shards(fault) => write_shard_fault(f, *fault),
            Failure::Workers => f.write_str("workers"),
            Failure::Division(fault) => {
                let number = division_number(*fault);
                write!(f, "division V{number}")
            }
            Failure::Run(fault) => {
                let number = fault_number(*fault);
                write!(f, "run F{number}")
            }
            Failure::Memory => f.write_str("memory"),
            Failure::Drive(stop) => write_stop(f, stop),
            Failure::Output => f.write_str("output"),
        }
    }
}

/// Writes which choices a setting has, if it has any.
fn write_swept_keys<W: fmt::Write>(f: &mut fmt::Formatter<W>, swept_keys: &str) -> fmt::Result
    ensures { WritesOnOk W.write_str_gives f.old result (setting_swept_keys swept_keys.now) f.new }
{
    if swept_keys.is_empty() {
        return Ok(());
    }
    write!(f, " with {swept_keys}")
}

/// Writes why files aren't the shards of one sweep.
fn write_shard_fault<W: fmt::Write>(f: &mut fmt::Formatter<W>, fault: ShardFault<'_>) -> fmt::Result
    ensures { WritesOnOk W.write_str_gives f.old result (shard_message fault.entry) f.new }
{
    match fault {
        ShardFault::NoShard(name) => {
            f.write_str("no piece ")?;
            write_name(f, name)
        }
        ShardFault::Other(name) => write_shard(f, name, " of another sweep"),
        ShardFault::Doubled(name) => write_shard(f, name, " twice"),
        ShardFault::Torn(name) => write_shard(f, name, " torn"),
        ShardFault::Older(name) => write_shard(
            f,
            name,
            " of an earlier version: make it again, or read it with that version",
        ),
        ShardFault::Missing(number) => write!(f, "piece {number} missing"),
    }
}

/// Writes what the message says of the shard in a file.
fn write_shard<W: fmt::Write>(f: &mut fmt::Formatter<W>, name: &str, what: &str) -> fmt::Result
    ensures { WritesOnOk W.write_str_gives f.old result (codes "piece " ++ shown_name name.now ++ what.now) f.new }
{
    f.write_str("piece ")?;
    write_name(f, name)?;
    f.write_str(what)
}

/// Writes the line that reports a failure to users, a name in it as `write_name` does. There is none for standard
/// output that failed.
fn tell<E: Write>(failure: &Failure<'_>, err: &mut E) -> io::Result<()>
    ensures told { OnOk result (Appends (E.contents err.old) (E.contents err.new) (failure_line failure.now)) }
{
    if is_silent(failure) {
        return Ok(());
    }
    writeln!(err, "swimsim: {failure}")
}

/// Whether no line reports a failure: standard output failed.
fn is_silent(failure: &Failure<'_>) -> bool
    ensures { result ≡ is_silent failure.now }
{
    match failure {
        Failure::Output => true,
        Failure::Drive(stop) => is_closed(stop),
        Failure::File(_)
        | Failure::Usage
        | Failure::Preset
        | Failure::NoItem { .. }
        | Failure::Rule(_)
        | Failure::Mistaken(_)
        | Failure::Setting { .. }
        | Failure::Shards(_)
        | Failure::Workers
        | Failure::Division(_)
        | Failure::Run(_)
        | Failure::Memory => false,
    }
}

/// Reports a failure to users on `err`, as far as it takes the line, and returns the exit status.
pub fn refuse<E: Write>(failure: &Failure<'_>, err: &mut E) -> u8
    ensures status { result ≡ status_of failure.now }
    ensures range { result ≤ 6 }
{
    let _ = tell(failure, err);
    failure.status()
}
