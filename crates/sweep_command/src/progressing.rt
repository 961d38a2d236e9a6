//! How far a sweep has come, in lines.
ghost use Rattle.std.specs.Prelude.{◌≡◌, ◌≤◌, ◌*◌, OnOk};
ghost use Rattle.std.specs.Io.KnownBytes.{Appends};
ghost use Rattle.sweep_command.specs.Progress.{runs_line, shares_over};

use std::io;
use std::io::Write;
use std::sync::Mutex;
use std::sync::atomic::{AtomicU64, AtomicUsize, Ordering};
use sweep::Progress;

/// How many lines a sweep prints at least from its beginning to its end.
const LINES: u64 = 50;

/// How many parts a run has.
const RUN_PARTS: u64 = 1_000_000;

/// Prints on a writer how far a sweep has come: a line for each fiftieth of it, where all runs count alike, and one each time
/// lines of the table were written, as far as the writer takes them.
#[derive(Drop)]
pub(crate) struct RunLines<'p, P: Write> {
    /// How many runs there are.
    all: AtomicUsize,
    /// How many of them were made.
    made: AtomicUsize,
    /// How many parts of all of them have passed.
    passed: AtomicU64,
    /// The lines.
    printed: Mutex<Printed<'p, P>>,
}

impl<'p, P: Write> RunLines<'p, P> {
    /// Lines of a sweep that begins.
    pub(crate) fn new(out: &'p mut P) -> RunLines<'p, P> {
        RunLines {
            all: AtomicUsize::new(0),
            made: AtomicUsize::new(0),
            passed: AtomicU64::new(0),
            printed: Mutex::new(Printed {
                out,
                made: 0,
                percent: 0,
            }),
        }
    }

    /// Prints the lines of what has passed, unless another thread is printing: then the next one prints them.
    fn print_passed(&self) {
        if let Some(mut printed) = self.printed.try_lock() {
            let all = self.all.load(Ordering::SeqCst);
            // all runs that have passed whole are among those that were made
            let passed = self.passed.load(Ordering::SeqCst);
            let made = self.made.load(Ordering::SeqCst);
            printed.print_up_to(lines_in(passed, all), made, all);
        }
    }
}

impl<P: Write + Send> Progress for RunLines<'_, P> {
    fn some_begin(&self, made: usize, all: usize) {
        self.all.store(all, Ordering::SeqCst);
        self.made.store(made, Ordering::SeqCst);
        self.passed.store(parts_of(made), Ordering::SeqCst);
        if let Some(mut printed) = self.printed.try_lock() {
            printed.begin(made, all);
        }
    }

    fn run_goes_on(&self, from: u64, to: u64, end: u64) {
        let parts = parts_at(to, end).saturating_sub(parts_at(from, end));
        self.passed.fetch_add(parts, Ordering::SeqCst);
        self.print_passed();
    }

    fn run_ends(&self, from: u64, end: u64) {
        let parts = RUN_PARTS.saturating_sub(parts_at(from, end));
        self.made.fetch_add(1, Ordering::SeqCst);
        self.passed.fetch_add(parts, Ordering::SeqCst);
        self.print_passed();
    }

    fn runs_made(&self, made: usize, all: usize) {
        if let Some(mut printed) = self.printed.try_lock() {
            printed.print_up_to(lines_in(parts_of(made), all), made, all);
            printed.print(made, all, percent_of(made, all));
        }
    }
}

/// The lines that were printed.
#[derive(Drop)]
struct Printed<'p, P: Write> {
    /// The writer.
    out: &'p mut P,
    /// How many runs the last line said were made.
    made: usize,
    /// How many percent of the whole it said had passed.
    percent: u64,
}

impl<P: Write> Printed<'_, P> {
    /// Leaves out the lines of what had passed before the sweep went on.
    fn begin(&mut self, made: usize, all: usize)
        ensures runs { self.old.made ≤ self.new.made }
        ensures percent { self.old.percent ≤ self.new.percent }
    {
        self.made = self.made.max(made);
        self.percent = self.percent.max(percent_of(made, all));
    }

    /// Prints the lines up to one of them, where so many runs were made.
    fn print_up_to(&mut self, line: u64, made: usize, all: usize)
        requires { line ≤ 50 }
        ensures reached { line * 2 ≤ self.new.percent }
        ensures rises { self.old.percent ≤ self.new.percent }
    {
        for before in shares_over(self.percent, 100, LINES)..line {
            let next = before + 1;
            self.print(runs_in(next, made, all), all, shares_over(next, LINES, 100));
        }
    }

    /// Prints a line, if it says more than the last one. None says less.
    fn print(&mut self, made: usize, all: usize, percent: u64)
        ensures runs { self.old.made ≤ self.new.made }
        ensures percent { self.old.percent ≤ self.new.percent }
        ensures reached { percent ≤ self.new.percent }
    {
        if percent < self.percent || (percent == self.percent && made <= self.made) {
            return;
        }
        self.made = self.made.max(made);
        self.percent = percent;
        // The sweep goes on whether the line is taken or not.
        let _ = print_runs(&mut *self.out, self.made, all, percent);
    }
}

/// Prints how many of all runs were made, and how many percent of the whole have passed.
#[tactic(auto, unfolding(crate::specs::Progress::runs_line))]
fn print_runs<P: Write>(out: &mut P, made: usize, all: usize, percent: u64) -> io::Result<()>
    ensures { OnOk result (Appends (P.contents out.old) (P.contents out.new) (runs_line made all percent)) }
{
    writeln!(out, "{made}/{all} runs, {percent} %")
}

/// How many parts so many runs have.
fn parts_of(runs: usize) -> u64 {
    (runs as u64).saturating_mul(RUN_PARTS)
}

/// How many parts of a run up to `end` have passed at a moment.
fn parts_at(moment: u64, end: u64) -> u64
    ensures { result ≡ shares_over moment end 1000000 }
{
    shares_over(moment, end, RUN_PARTS)
}

/// Of how many lines all has passed where so many parts of all runs have. The last line is printed once all runs were made.
fn lines_in(passed: u64, all: usize) -> u64
    ensures { result ≤ 49 }
{
    shares_over(passed, parts_of(all), LINES).min(LINES - 1)
}

/// How many runs that were made lie before the end of a line.
fn runs_in(line: u64, made: usize, all: usize) -> usize
    ensures { result ≤ made }
{
    shares_over(line, LINES, all as u64).min(made as u64) as usize
}

/// How many percent of all runs were made.
fn percent_of(made: usize, all: usize) -> u64
    ensures { result ≡ shares_over made all 100 }
{
    shares_over(made as u64, all as u64, 100)
}

/// How many of so many equal shares of a whole are over where so much of it has passed.
fn shares_over(passed: u64, whole: u64, shares: u64) -> u64
    ensures { result ≡ shares_over passed whole shares }
{
    let over = u128::from(passed) * u128::from(shares) / u128::from(whole.max(1));
    over.min(u128::from(shares)) as u64
}
