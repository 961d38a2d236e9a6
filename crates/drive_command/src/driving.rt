//! The drive of the scenario of a file.
ghost use Rattle.std.specs.Prelude.{◌≡◌, ◌<◌, ◌++◌, [], OnOk, OnErr, IfErr};
ghost use Rattle.links.specs.Arrival.{AreLinksOf};
ghost use Rattle.drive_events.specs.Line.{end_line};
ghost use Rattle.drive_world.specs.DriveOf.{IsSetting};
ghost use Rattle.drive_command.specs.Ends.{EndsBy};
ghost use Rattle.drive_command.specs.Outcomes.{DriveEnds, DriveFails, DrivesAll, DrivesScenario};

use crate::ends::drive_failure;
use crate::making::{close_files, make_files};
use crate::playing::play;
use command_line::{DriveWords, Failure, Release};
use drive_world::{DriveError, Harness, Setting, write_end};
use files::Files;
use links::Links;
use page_runs::{PageSeries, RunShown};
use scenario::Scenario;
use scenario_files::load;
use std::alloc::Global;

/// Plays the world of the scenario of one file for a harness, and writes its trace, its report and its page to others,
/// which are made once the scenario is accepted. The page shows the release. Once they are whole the harness is sent
/// the end.
///
/// Failures: those of `load`; `File` of a file that can't be made; `Drive` where an answer is none, or where nothing more can
/// be sent to the harness; `Run`; `Memory`.
pub fn drive<'a, H: Harness, F: Files>(
    alloc: Global,
    release: &Release<'_>,
    words: DriveWords<'a>,
    files: &mut F,
    harness: &mut H,
) -> Result<(), Failure<'a>>
    requires untold { H.told harness.old ≡ [] }
    requires ungiven { H.gave harness.old ≡ [] }
    ensures done { OnOk result (DrivesAll release.now.version.now (F.known files.old) (F.known files.new) (F.making files.old) words.entry
        (H.gave harness.new) (H.told harness.new)) }
    ensures failed { IfErr result (DriveFails (F.refused files.old < F.refused files.new) release.now.version.now
        (F.known files.old) (F.known files.new) (F.making files.old) words.entry (H.gave harness.new) (H.told harness.new)) }

    // No file refused a write of a drive that was done.
    ensures whole { OnOk result (F.refused files.new ≡ F.refused files.old) }
{
    let scenario = load(alloc, words.file, files)?;
    drive_scenario(alloc, release, &scenario, words, files, harness)
}

/// Drives a scenario, and writes its trace, its report and its page to the files that the words name.
fn drive_scenario<'a, H: Harness, F: Files>(
    alloc: Global,
    release: &Release<'_>,
    scenario: &Scenario,
    words: DriveWords<'a>,
    files: &mut F,
    harness: &mut H,
) -> Result<(), Failure<'a>>
    requires untold { H.told harness.old ≡ [] }
    requires ungiven { H.gave harness.old ≡ [] }
    ensures done { OnOk result (DrivesScenario scenario.now release.now.version.now (F.known files.old) (F.known files.new) (F.making files.old) words.entry
        (H.gave harness.new) (H.told harness.new)) }
    ensures failed { IfErr result (DriveEnds (F.refused files.old < F.refused files.new) scenario.now release.now.version.now
        (F.known files.old) (F.known files.new) (F.making files.old) words.entry (H.gave harness.new) (H.told harness.new)) }
    ensures whole { OnOk result (F.refused files.new ≡ F.refused files.old) }
{
    let Ok(links) = Links::of(alloc, scenario) else {
        return Err(Failure::Memory);
    };
    let Ok(series) = PageSeries::new(alloc, scenario) else {
        return Err(Failure::Memory);
    };
    let setting = setting_of(scenario, &links);
    let shown = RunShown {
        name: words.file,
        release: release.version,
        tick: None,
    };
    let made = make_files(words, files)?;
    let (made, outcome) = play(alloc, &setting, &shown, harness, series, made);
    close_files(words, made, files);
    told(alloc, scenario, harness, outcome)
}

/// What a drive of the scenario reads, by the scenario's links.
fn setting_of<'s>(scenario: &'s Scenario, links: &'s Links) -> Setting<'s>
    requires { AreLinksOf links.now scenario.now }
    ensures scenario { result.scenario.now ≡ scenario.entry.now }
    ensures setting { IsSetting result }
{
    let _end = scenario.end();
    let least_delay = links.least_delay();
    Setting {
        scenario,
        links,
        least_delay,
    }
}

/// Sends the harness the end of a drive that was done, and returns how the drive ended.
fn told<H: Harness>(
    alloc: Global,
    scenario: &Scenario,
    harness: &mut H,
    outcome: Result<(), DriveError>,
) -> Result<(), Failure<'static>>
    ensures done { OnOk result (OnOk outcome (H.told harness.new ≡ H.told harness.old ++ end_line scenario.now)) }
    ensures was { OnErr outcome (OnOk result ⊥) }
    ensures failed { IfErr result (EndsBy outcome) }
    ensures told { OnErr outcome (H.told harness.new ≡ H.told harness.old) }
    ensures gave { H.gave harness.new ≡ H.gave harness.old }
{
    match outcome {
        Ok(()) => match write_end(alloc, scenario, harness) {
            Ok(()) => Ok(()),
            Err(error) => Err(drive_failure(error)),
        },
        Err(error) => Err(drive_failure(error)),
    }
}
