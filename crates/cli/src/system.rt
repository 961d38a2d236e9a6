//! The program over the system: its files, and the words that it hands to a program.
ghost use Rattle.std.specs.Prelude.{◌≡◌, ◌≢◌, ◌≤◌};
ghost use Rattle.std.specs.Process.{exit_status};

use crate::processors::most_workers;
use crate::program::command;
use crate::surroundings::{SystemSurroundings, is_terminal};
pub use command_line::system::words;
use command_line::{Release, refuse};
use drive_command::PipeHarness;
use drive_pipes::SendError;
use drive_pipes::system::{StandardEnds, Writer, start_writer};
use drive_world::Harness;
pub use files::system::SystemFiles;
use std::fs;
use std::io::{Print, Read, Write};
use std::process::ExitCode;
use std::rt::{Env, Files};
use std::sync::Wait;
use std::thread::Threads;

/// The name of a file that holds nothing and keeps nothing.
const NOTHING: &str = "/dev/null";

/// The command that plays a scenario for a harness.
const DRIVE: &str = "drive";

/// Does what the words of the program's command line ask for, and returns the status that the program ends with.
/// `release` is what it prints of itself; `out` and `err` are its streams; how far a run or a sweep has come
/// goes to `progress`, where that is asked for. A drive's harness is behind `input` and `output`.
pub fn run_program<
    R: Threads + Wait + Sync + Env + Files + AllocGlobal + Copy + Send + Drop + 'static,
    O: Write,
    E: Write,
    P: Write + Send,
    I: Read + Drop,
    D: Print + Send + Drop + 'static,
>(
    rt: &R,
    release: &Release<'_>,
    out: &mut O,
    err: &mut E,
    progress: &mut P,
    input: I,
    output: D,
) -> ExitCode
    ensures range { exit_status result ≤ 6 }
    ensures silent { 2 ≤ exit_status result → exit_status result ≢ 3 → out.new ≡ out.old }
    ensures quiet { exit_status result ≡ 0 → err.new ≡ err.old }
{
    // They hold the numbers of those standard streams that were closed when the program began: the next
    // file that is opened would get such a number, and what is meant for the stream would go into it.
    let _input = fs::open(rt, NOTHING);
    let _output = fs::open(rt, NOTHING);
    let _error = fs::open(rt, NOTHING);
    let status = match words(rt) {
        Ok(words) => {
            let mut files = SystemFiles::new(rt);
            let writer = writer_of(*rt, words.as_slice(), output);
            let ends = StandardEnds::new(*rt, rt.alloc(), input, writer);
            let mut harness = PipeHarness::new(rt.alloc(), ends);
            let status = command(
                rt,
                rt.alloc(),
                release,
                words.as_slice(),
                &mut files,
                out,
                err,
                progress,
                &mut harness,
                is_terminal(rt),
                most_workers(rt),
                &SystemSurroundings { runtime: rt },
            );
            // What was sent goes out, however a drive ends; the thread that writes it has ended then.
            let _ = harness.flush();
            status
        }
        Err(failure) => refuse(&failure, err),
    };
    ExitCode::from(status)
}

/// The thread that writes a drive's events; for other commands none is started.
fn writer_of<
    R: Threads + Wait + AllocGlobal + Copy + Send + Drop + 'static,
    D: Print + Send + Drop + 'static,
>(rt: R, words: &[String], output: D) -> Result<Writer, SendError> {
    match words.first() {
        Some(word) if word.as_str() == DRIVE => start_writer(rt, rt.alloc(), output),
        _ => Err(SendError::Closed),
    }
}
