//! The program as a function over files and writers.
ghost use Rattle.std.specs.Prelude.{◌≡◌, ◌≢◌, ◌⊎◌, ◌<◌, ◌≤◌, [], map, IfErr, OnOk, IsErrOf};
ghost use Rattle.command_line.specs.Failures.{IsMistaken};
ghost use Rattle.command_line.specs.Words.{AsksToDrive, AsksToExplain, IsCommand, IsNoCommand};
ghost use Rattle.sweep_command.specs.Outcomes.{SetsNoItem};
ghost use Rattle.cli.specs.Outcomes.{AsksForProgress, HasDone, Fails, Ends};

use crate::simulation::ByThreads;
use advice::{Surroundings, print_why};
use command_line::{
    Asked, Failure, Release, parse, print_help, print_members, print_preset, print_release,
    print_rows, print_text, refuse,
};
use drive_command::drive;
use drive_world::Harness;
use expand_command::expand_file;
use explain_command::explain_file;
use files::Files;
use join_command::{join_files, page_files};
use run_command::run;
use scenario::Workers;
use scenario_files::load;
use std::alloc::Global;
use std::convert::AsStr;
use std::io::Write;
use std::sync::Wait;
use std::thread::Threads;
use sweep_command::sweep_file;

/// Does what the words ask for, and returns the exit status.
///
/// `rt` starts the threads of a run, of which no more than `most` simulate, and lets them wait. `release` is what the program prints of itself.
/// `words` are those of the command line without the program's name. A failure is reported in one line on `err`, below which others say why:
/// of `check` and `run` only where `err` is a terminal. `out` then gets nothing, unless it failed itself or gets the diagnostics of a scenario.
/// `surroundings` are asked what the system says of a file that can't be read or made. A run or a sweep that is to report how far it has come
/// does so on `progress`, as far as that takes its lines.
pub fn command<
    S: AsStr,
    F: Files,
    O: Write,
    E: Write,
    P: Write + Send,
    A: Surroundings,
    H: Harness,
>(
    rt: &(impl Threads + Wait + Sync),
    alloc: Global,
    release: &Release<'_>,
    words: &[S],
    files: &mut F,
    out: &mut O,
    err: &mut E,
    progress: &mut P,
    harness: &mut H,
    is_terminal: bool,
    most: Workers,
    surroundings: &A,
) -> u8
    // The harness got nothing yet, and gave nothing.
    requires untold { H.told harness.old ≡ [] }
    requires ungiven { H.gave harness.old ≡ [] }
    ensures range { result ≤ 6 }

    // Status 0: what the words ask for was done. A run has left its trace in the file of that name, its
    // report and its page where they are asked for, and printed the number of its rows; a check, the number of members; an
    // explanation, what the scenario means; `expand`, the plain text that the scenario stands for; a sweep has left its table
    // and its page, and printed the lines of its settings, unless it is a shard; a preset's scenario was printed; shards that
    // were joined have left the table of the whole and its page, and printed those lines; a page of shards was left, and nothing
    // printed; a drive has left what a run leaves, as its harness answered, and sent it the end; the version's line was printed.
    ensures done { result ≡ 0 → HasDone release.now (map S.text words.now) (F.known files.old) (F.known files.new) (F.making files.old)
        (O.contents out.old) (O.contents out.new) (H.gave harness.new) (H.told harness.new) }

    // Any other status has its cause, which the files and the words bear out: by a failed write nothing ends unless a file
    // has refused one.
    ensures failed { result ≢ 0
        → Ends (F.refused files.old < F.refused files.new) (map S.text words.now) (F.known files.old) (F.known files.new) (F.making files.old)
        O.contents out.old out.new (H.gave harness.new) (H.told harness.new) result }

    // Status 2 is for words that are no command, and for the key of an item that the text hasn't. The former get it, unless
    // memory is refused.
    ensures usage { result ≡ 2 → IsNoCommand (map S.text words.now) ⊎ SetsNoItem (map S.text words.now) (F.known files.old) }
    ensures other { ¬ (IsCommand (map S.text words.now)) → (result ≡ 2) ⊎ (result ≡ 5) }

    // What failed says nothing on standard output, but for the diagnostics of a scenario that was to be explained and is
    // refused; and what was done says nothing on standard error.
    ensures silent { 2 ≤ result → ¬ (AsksToExplain (map S.text words.now)) ⊎ (result ≢ 3) → out.new ≡ out.old }
    ensures quiet { result ≡ 0 → err.new ≡ err.old }

    // No words but those of a run or a sweep that is to report it write to `progress`.
    ensures unasked { ¬ (AsksForProgress (map S.text words.now)) → progress.new ≡ progress.old }

    // Nor does the harness hear of anything but a drive.
    ensures undriven { ¬ (AsksToDrive (map S.text words.now)) → harness.new ≡ harness.old }
{
    let performed = perform(
        rt, alloc, release, words, most, files, out, progress, harness,
    );
    match performed {
        Ok(()) => 0,
        Err(failure) => {
            let status = refuse(&failure, err);
            print_why(
                alloc,
                is_terminal,
                surroundings,
                words,
                &failure,
                files,
                err,
            );
            status
        }
    }
}

/// Does what the words ask for.
fn perform<'a, S: AsStr, F: Files, O: Write, P: Write + Send, H: Harness>(
    rt: &(impl Threads + Wait + Sync),
    alloc: Global,
    release: &Release<'_>,
    words: &'a [S],
    most: Workers,
    files: &mut F,
    out: &mut O,
    progress: &mut P,
    harness: &mut H,
) -> Result<(), Failure<'a>>
    requires untold { H.told harness.old ≡ [] }
    requires ungiven { H.gave harness.old ≡ [] }
    ensures done { OnOk result (HasDone release.now (map S.text words.entry.now) (F.known files.old) (F.known files.new) (F.making files.old)
        (O.contents out.old) (O.contents out.new) (H.gave harness.new) (H.told harness.new)) }
    ensures failed { IfErr result
        (Fails (F.refused files.old < F.refused files.new) (map S.text words.entry.now) (F.known files.old) (F.known files.new) (F.making files.old)
        (O.contents out.old) (O.contents out.new) (H.gave harness.new) (H.told harness.new)) }
    ensures command { OnOk result (IsCommand (map S.text words.entry.now)) }
    ensures other { ¬ (IsCommand (map S.text words.entry.now))
        → IfErr result (λ failure. (failure ≡ Failure.Usage) ⊎ ((failure ≡ Failure.Preset) ⊎ (failure ≡ Failure.Memory))) }
    ensures usage { IsErrOf result Failure.Usage → IsNoCommand (map S.text words.entry.now) }
    ensures preset { IsErrOf result Failure.Preset → IsNoCommand (map S.text words.entry.now) }
    ensures silent { IfErr result (λ failure. failure ≢ Failure.Output → ¬ (IsMistaken failure) → out.new ≡ out.old) }
    ensures unasked { ¬ (AsksForProgress (map S.text words.entry.now)) → progress.new ≡ progress.old }
    ensures undriven { ¬ (AsksToDrive (map S.text words.entry.now)) → harness.new ≡ harness.old }
{
    match parse(alloc, words)? {
        Asked::Help(help) => print_help(&help, out),
        Asked::Version => print_release(release, out),
        Asked::Run(words) => {
            let by_threads = ByThreads { rt, most };
            let summary = run(&by_threads, alloc, release, words, files, progress)?;
            print_rows(summary.rows, out)
        }
        Asked::Check(file) => {
            let scenario = load(alloc, file, files)?;
            print_members(scenario.members(), out)
        }
        Asked::Explain(words) => explain_file(alloc, words, files, out),
        Asked::Sweep(words) => {
            let lines = sweep_file(rt, alloc, release, &words, files, progress)?;
            print_text(lines.as_str(), out)
        }
        Asked::Init(preset) => print_preset(alloc, preset, out),
        Asked::Join(words) => {
            let joined = join_files(alloc, release, &words, files)?;
            print_text(joined.as_str(), out)
        }
        Asked::Page(words) => page_files(alloc, release, &words, files),
        Asked::Drive(words) => drive(alloc, release, words, files, harness),
        Asked::Expand(file) => {
            let text = expand_file(alloc, file, files)?;
            print_text(text.as_str(), out)
        }
    }
}
