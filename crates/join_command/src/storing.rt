//! The files that take the table of a whole sweep and a page of its settings.
ghost use Rattle.std.specs.Prelude.{◌≡◌, ◌<◌, ◌^◌, ◌+◌, IfErr, OnErr, OnOk};
ghost use Rattle.std.specs.Io.KnownBytes.{Appends};
ghost use Rattle.base.specs.declared.fault.Fault.TheVariants as cause;
ghost use Rattle.trace.specs.Sinks.{AppendsBeginning, failure_if_stopped};
ghost use Rattle.trace.specs.Writers.{put_failures, writer_under};
ghost use Rattle.join_command.specs.Outcomes.{AppendsBoth, BeginsBoth, FailsToStore, FailsToStoreBoth, Stores, StoresBoth};

use base::Fault;
use command_line::Failure;
use files::{Files, PairFault};
use scenario_files::{file_failure, run_result};
use std::io::Write;
use sweep_output::put_text;
use trace::{Put, Sink, Stopped};

/// Writes a text to the file of this name, which isn't that of the source.
pub(crate) fn store<'a, F: Files>(
    source: &str,
    name: &'a str,
    text: &[u8],
    files: &mut F,
) -> Result<(), Failure<'a>>
    ensures done { OnOk result (Stores (F.known files.old) (F.known files.new) (F.making files.old) source.now name.entry.now text.now) }
    ensures failed { IfErr result (FailsToStore (F.refused files.old < F.refused files.new) (F.known files.old) (F.known files.new) (F.making files.old) source.now name.entry.now text.now) }
{
    let made = match files.make_whole(source, name) {
        Ok(made) => made,
        Err(fault) => return Err(file_failure(fault, name)),
    };
    let (made, outcome) = fill(made, text);
    files.close(name, made);
    run_result(outcome)
}

/// Writes a table and then a page to the files of these names, none of which is that of the source. Either both are made or
/// neither is.
pub(crate) fn store_both<'a, F: Files>(
    source: &str,
    name: &'a str,
    table: &[u8],
    page: &'a str,
    shown: &[u8],
    files: &mut F,
) -> Result<(), Failure<'a>>
    ensures done { OnOk result
        (StoresBoth (F.known files.old) (F.known files.new) (F.making files.old) source.now name.entry.now page.entry.now table.now shown.now) }
    ensures failed { IfErr result
        (FailsToStoreBoth (F.refused files.old < F.refused files.new) (F.known files.old) (F.known files.new) (F.making files.old) source.now name.entry.now page.entry.now table.now shown.now) }
{
    let (made, made_page) = match files.make_both_whole(source, name, page) {
        Ok(made) => made,
        Err(PairFault::First) => return Err(Failure::File(name)),
        Err(PairFault::Second) => return Err(Failure::File(page)),
        Err(PairFault::Memory) => return Err(Failure::Memory),
    };
    let (made, made_page, outcome) = fill_both(made, table, made_page, shown);
    files.close(name, made);
    files.close(page, made_page);
    run_result(outcome)
}

/// Writes a text to a writer, and gives it back.
fn fill<T: Write>(writer: T, text: &[u8]) -> (Put<T>, Result<(), Fault>)
    ensures whole { OnOk result.1 (Appends (T.contents writer) (T.contents (writer_under result.0)) text.now) }
    ensures part { OnErr result.1 (AppendsBeginning (T.contents writer) (T.contents (writer_under result.0)) text.now) }
    ensures causes { IfErr result.1 (λ fault. fault ≡ cause.Write) }
    ensures failures { put_failures result.0 ≡ failure_if_stopped result.1 }
{
    let mut writer = Put::new(writer);
    let outcome = put_whole(text, &mut writer);
    (writer, outcome)
}

/// Writes a text to a writer and then another to a second, and gives both back.
fn fill_both<T: Write, U: Write>(
    writer: T,
    text: &[u8],
    second: U,
    shown: &[u8],
) -> (Put<T>, Put<U>, Result<(), Fault>)
    ensures whole { OnOk result.2 (AppendsBoth (T.contents writer) (T.contents (writer_under result.0)) text.now
        (U.contents second) (U.contents (writer_under result.1)) shown.now) }
    ensures part { OnErr result.2 (BeginsBoth (T.contents writer) (T.contents (writer_under result.0)) text.now
        (U.contents second) (U.contents (writer_under result.1)) shown.now) }
    ensures causes { IfErr result.2 (λ fault. fault ≡ cause.Write) }
    ensures failures { put_failures result.0 + put_failures result.1 ≡ failure_if_stopped result.2 }
{
    let mut writer = Put::new(writer);
    let mut second = Put::new(second);
    let outcome = put_both(text, &mut writer, shown, &mut second);
    (writer, second, outcome)
}

/// Puts a text, and then another to a second sink.
fn put_both<S: Sink, U: Sink>(
    text: &[u8],
    sink: &mut S,
    shown: &[u8],
    second: &mut U,
) -> Result<(), Fault>
    requires countable { S.failed sink.old < 2 ^ 63 }
    requires countable_too { U.failed second.old < 2 ^ 63 }
    ensures whole { OnOk result (AppendsBoth (S.held sink.old) (S.held sink.new) text.now (U.held second.old) (U.held second.new) shown.now) }
    ensures part { OnErr result (BeginsBoth (S.held sink.old) (S.held sink.new) text.now (U.held second.old) (U.held second.new) shown.now) }
    ensures causes { IfErr result (λ fault. fault ≡ cause.Write) }
    ensures failures { S.failed sink.new + U.failed second.new ≡ (S.failed sink.old + U.failed second.old) + failure_if_stopped result }
{
    put_whole(text, sink)?;
    put_whole(shown, second)
}

/// Puts a text, and has the sink hand on what it took.
fn put_whole<S: Sink>(text: &[u8], sink: &mut S) -> Result<(), Fault>
    requires { S.failed sink.old < 2 ^ 63 }
    ensures whole { OnOk result (Appends (S.held sink.old) (S.held sink.new) text.now) }
    ensures part { OnErr result (AppendsBeginning (S.held sink.old) (S.held sink.new) text.now) }
    ensures causes { IfErr result (λ fault. fault ≡ cause.Write) }
    ensures failures { S.failed sink.new ≡ S.failed sink.old + failure_if_stopped result }
{
    match put_text(text, sink) {
        Ok(()) => Ok(()),
        Err(Stopped) => Err(Fault::Write),
    }
}
