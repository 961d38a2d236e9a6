//! The files of a drive: that of the trace, and those of the report and the page where they are asked for.
ghost use Rattle.std.specs.Prelude.{◌≡◌, ◌+◌, Some, None, IfOk, IfErr, OnOk};
ghost use Rattle.scenario_files.specs.Shelves.{word_given};
ghost use Rattle.drive_command.specs.Making.{AreMade, ClosesAll, ClosesAsked, MakeFails, failures_asked, failures_closed};
ghost use Rattle.drive_command.specs.Outcomes.{AreDifferent};

use command_line::{DriveWords, Failure};
use files::{Files, PairFault, TripleFault};
use scenario_files::file_failure;
use std::io::Write;
use trace::Put;

/// The files of a drive.
#[derive(Drop)]
pub(crate) struct Made<M: Write + Drop> {
    pub(crate) trace: Put<M>,
    pub(crate) report: Option<Put<M>>,
    pub(crate) page: Option<Put<M>>,
}

/// Makes the files that the words name, all or none of them.
///
/// Failures: `File` with the name of one that can't be made; `Memory`.
pub(crate) fn make_files<'a, F: Files>(
    words: DriveWords<'a>,
    files: &mut F,
) -> Result<Made<F::Made>, Failure<'a>>
    ensures made { IfOk result (AreMade F.Made.contents (F.known files.old) (F.known files.new)
        words.entry.trace.now (word_given words.entry.report) (word_given words.entry.page)) }
    ensures apart { OnOk result (AreDifferent (F.making files.old) words.entry.file.now words.entry.trace.now (word_given words.entry.report)
        (word_given words.entry.page)) }
    ensures failed { IfErr result (MakeFails (F.known files.old) (F.known files.new) (F.making files.old)
        words.entry.file.now words.entry.trace.now (word_given words.entry.report) (word_given words.entry.page)) }
    ensures counted { F.refused files.new ≡ F.refused files.old }
{
    match words.page {
        Some(page) => match words.report {
            Some(report) => make_three(words, report, page, files),
            None => make_with_page(words, page, files),
        },
        None => match words.report {
            Some(report) => make_with_report(words, report, files),
            None => make_one(words, files),
        },
    }
}

/// Makes the file of the trace alone.
fn make_one<'a, F: Files>(
    words: DriveWords<'a>,
    files: &mut F,
) -> Result<Made<F::Made>, Failure<'a>>
    ensures made { IfOk result (AreMade F.Made.contents (F.known files.old) (F.known files.new) words.entry.trace.now None None) }
    ensures apart { OnOk result (AreDifferent (F.making files.old) words.entry.file.now words.entry.trace.now None None) }
    ensures failed { IfErr result (MakeFails (F.known files.old) (F.known files.new) (F.making files.old)
        words.entry.file.now words.entry.trace.now None None) }
    ensures counted { F.refused files.new ≡ F.refused files.old }
{
    match files.make(words.file, words.trace) {
        Ok(trace) => Ok(Made {
            trace: Put::new(trace),
            report: None,
            page: None,
        }),
        Err(fault) => Err(file_failure(fault, words.trace)),
    }
}

/// Makes the files of the trace and the report.
fn make_with_report<'a, F: Files>(
    words: DriveWords<'a>,
    report: &'a str,
    files: &mut F,
) -> Result<Made<F::Made>, Failure<'a>>
    ensures made { IfOk result (AreMade F.Made.contents (F.known files.old) (F.known files.new) words.entry.trace.now
        (Some report.entry.now) None) }
    ensures apart { OnOk result (AreDifferent (F.making files.old) words.entry.file.now words.entry.trace.now (Some report.entry.now) None) }
    ensures failed { IfErr result (MakeFails (F.known files.old) (F.known files.new) (F.making files.old)
        words.entry.file.now words.entry.trace.now (Some report.entry.now) None) }
    ensures counted { F.refused files.new ≡ F.refused files.old }
{
    match files.make_both(words.file, words.trace, report) {
        Ok((made_trace, made_report)) => Ok(Made {
            trace: Put::new(made_trace),
            report: Some(Put::new(made_report)),
            page: None,
        }),
        Err(PairFault::First) => Err(Failure::File(words.trace)),
        Err(PairFault::Second) => Err(Failure::File(report)),
        Err(PairFault::Memory) => Err(Failure::Memory),
    }
}

/// Makes the files of the trace and the page.
fn make_with_page<'a, F: Files>(
    words: DriveWords<'a>,
    page: &'a str,
    files: &mut F,
) -> Result<Made<F::Made>, Failure<'a>>
    ensures made { IfOk result (AreMade F.Made.contents (F.known files.old) (F.known files.new) words.entry.trace.now
        None (Some page.entry.now)) }
    ensures apart { OnOk result (AreDifferent (F.making files.old) words.entry.file.now words.entry.trace.now None (Some page.entry.now)) }
    ensures failed { IfErr result (MakeFails (F.known files.old) (F.known files.new) (F.making files.old)
        words.entry.file.now words.entry.trace.now None (Some page.entry.now)) }
    ensures counted { F.refused files.new ≡ F.refused files.old }
{
    match files.make_both(words.file, words.trace, page) {
        Ok((made_trace, made_page)) => Ok(Made {
            trace: Put::new(made_trace),
            report: None,
            page: Some(Put::new(made_page)),
        }),
        Err(PairFault::First) => Err(Failure::File(words.trace)),
        Err(PairFault::Second) => Err(Failure::File(page)),
        Err(PairFault::Memory) => Err(Failure::Memory),
    }
}

/// Makes the files of the trace, the report and the page.
fn make_three<'a, F: Files>(
    words: DriveWords<'a>,
    report: &'a str,
    page: &'a str,
    files: &mut F,
) -> Result<Made<F::Made>, Failure<'a>>
    ensures made { IfOk result (AreMade F.Made.contents (F.known files.old) (F.known files.new) words.entry.trace.now
        (Some report.entry.now) (Some page.entry.now)) }
    ensures apart { OnOk result (AreDifferent (F.making files.old) words.entry.file.now words.entry.trace.now
        (Some report.entry.now) (Some page.entry.now)) }
    ensures failed { IfErr result (MakeFails (F.known files.old) (F.known files.new) (F.making files.old)
        words.entry.file.now words.entry.trace.now (Some report.entry.now) (Some page.entry.now)) }
    ensures counted { F.refused files.new ≡ F.refused files.old }
{
    match files.make_three(words.file, words.trace, report, page) {
        Ok((made_trace, made_report, made_page)) => Ok(Made {
            trace: Put::new(made_trace),
            report: Some(Put::new(made_report)),
            page: Some(Put::new(made_page)),
        }),
        Err(TripleFault::First) => Err(Failure::File(words.trace)),
        Err(TripleFault::Second) => Err(Failure::File(report)),
        Err(TripleFault::Third) => Err(Failure::File(page)),
        Err(TripleFault::Memory) => Err(Failure::Memory),
    }
}

/// Closes the files that were made for the words.
pub(crate) fn close_files<F: Files>(words: DriveWords<'_>, made: Made<F::Made>, files: &mut F)
    ensures closed { ClosesAll F.Made.contents (F.known files.old) (F.known files.new)
        words.entry.trace.now (word_given words.entry.report) (word_given words.entry.page) made }
    ensures refused { F.refused files.new
        ≡ F.refused files.old + failures_closed (word_given words.entry.report) (word_given words.entry.page) made }
{
    let Made {
        trace,
        report,
        page,
    } = made;
    files.close(words.trace, trace);
    close_asked(words.report, report, files);
    close_asked(words.page, page, files);
}

/// Closes a file that is asked for.
fn close_asked<F: Files>(name: Option<&str>, made: Option<Put<F::Made>>, files: &mut F)
    ensures closed { ClosesAsked F.Made.contents (F.known files.old) (F.known files.new) (word_given name.entry) made }
    ensures refused { F.refused files.new ≡ F.refused files.old + failures_asked (word_given name.entry) made }
{
    match name {
        Some(name) => match made {
            Some(made) => files.close(name, made),
            None => {}
        },
        None => {}
    }
}
