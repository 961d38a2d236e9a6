//! swimsim: simulates clusters of the SWIM membership protocol.
#![tactic(auto)]

mod release;

use cli::Release;
use cli::system::run_program;
use std::process::ExitCode;

fn main(rt: HostRuntime) -> ExitCode {
    let release = Release {
        version: release::VERSION,
        sources: release::SOURCES,
        kit: release::KIT,
    };
    run_program(
        &rt,
        &release,
        &mut rt.stdout(),
        &mut rt.stderr(),
        &mut rt.stderr(),
        rt.stdin(),
        rt.stdout(),
    )
}
