//! What is printed of a run while its rows come.
ghost use Rattle.std.specs.Prelude.{◌≡◌, OnOk};
ghost use Rattle.std.specs.Io.KnownBytes.{Appends};
ghost use Rattle.run_progress.specs.Lines.{passed_line, shares_passed};

use base::Fault;
use run_output::RowObserver;
use scenario::Scenario;
use std::io;
use std::io::Write;
use trace::Row;

/// How many lines a run prints from its beginning to its end.
const LINES: u64 = 50;

/// What is gathered of the rows of a run, and a writer, where there is one, that gets a line for each fiftieth of the run
/// that has passed, as far as it takes that.
#[derive(Drop)]
pub struct Watched<'p, P: Write, G> {
    /// The writer.
    out: Option<&'p mut P>,
    passed: Passed,
    /// What is gathered of the rows.
    pub gathered: G,
}

impl<'p, P: Write, G: RowObserver> Watched<'p, P, G> {
    /// Watches a run of which no row has passed. What was gathered stays.
    pub fn new(out: Option<&'p mut P>, gathered: G) -> Watched<'p, P, G>
        ensures { result.gathered ≡ gathered }
    {
        let passed = Passed {
            rows: 0,
            printed: 0,
        };
        Watched {
            out,
            passed,
            gathered,
        }
    }
}

impl<P: Write, G: RowObserver> RowObserver for Watched<'_, P, G> {
    ghost has = { λ watched s rows. G.has watched.gathered s rows };

    fn add_all(&mut self, rows: &[Row], scenario: &Scenario) -> Result<(), Fault> {
        match &mut self.out {
            Some(out) => self.passed.print_all(rows, scenario, *out),
            None => {}
        }
        self.gathered.add_all(rows, scenario)
    }
}

/// How far a run has come.
#[derive(Drop)]
struct Passed {
    /// How many rows have passed.
    rows: u64,
    /// How many fiftieths of the run were passed when the last line was printed.
    printed: u64,
}

impl Passed {
    /// Counts these rows, and prints a line where a further fiftieth of the run has passed.
    fn print_all<P: Write>(&mut self, rows: &[Row], scenario: &Scenario, out: &mut P) {
        let end = scenario.end().ticks();
        for row in rows {
            self.rows = self.rows.saturating_add(1);
            let at = row.at.ticks();
            let passed = shares_passed(at, end, LINES);
            if passed > self.printed {
                self.printed = passed;
                // The run goes on whether the line is taken or not.
                let _ = print_passed(out, at, end, self.rows);
            }
        }
    }
}

/// How many of so many equal shares of a run are over at a moment of it.
fn shares_passed(at: u64, end: u64, shares: u64) -> u64
    ensures { result ≡ shares_passed at end shares }
{
    let passed = u128::from(at) * u128::from(shares) / u128::from(end.max(1));
    passed.min(u128::from(shares)) as u64
}

/// Prints how far a run has come: in percent, at which moment in ticks it is, up to which it goes, and how
/// many rows have passed.
#[tactic(auto, unfolding(crate::specs::Lines::passed_line))]
fn print_passed<P: Write>(out: &mut P, at: u64, end: u64, rows: u64) -> io::Result<()>
    ensures { OnOk result (Appends (P.contents out.old) (P.contents out.new) (passed_line at end rows)) }
{
    let percent = shares_passed(at, end, 100);
    let millions = rows / 1_000_000;
    let tenths = rows % 1_000_000 / 100_000;
    writeln!(
        out,
        "{percent} %, moment {at} of {end}, {millions}.{tenths} million rows"
    )
}
