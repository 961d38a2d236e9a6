//! What a command prints on standard output.
ghost use Rattle.std.specs.Prelude.{◌≡◌, OnOk, IfErr};
ghost use Rattle.std.specs.Io.KnownBytes.{Appends};
ghost use Rattle.command_line.specs.Printed.{members_line, release_line, rows_line, PresetFails, PrintsPreset};

use crate::failure::Failure;
use crate::release::Release;
use clap::Error;
use presets::Preset;
use std::alloc::Global;
use std::io::Write;

/// Prints how many rows a trace has.
///
/// Failure: `Output` where `out` takes less, or its flush fails.
pub fn print_rows<'a, O: Write>(rows: u64, out: &mut O) -> Result<(), Failure<'a>>
    ensures printed { OnOk result (Appends (O.contents out.old) (O.contents out.new) (rows_line rows)) }
    ensures failure { IfErr result (λ failure. failure ≡ Failure.Output) }
{
    if writeln!(out, "rows {rows}").is_err() || out.flush().is_err() {
        return Err(Failure::Output);
    }
    Ok(())
}

/// Prints how many members a scenario has.
///
/// Failure: `Output` where `out` takes less, or its flush fails.
pub fn print_members<'a, O: Write>(members: usize, out: &mut O) -> Result<(), Failure<'a>>
    ensures printed { OnOk result (Appends (O.contents out.old) (O.contents out.new) (members_line members)) }
    ensures failure { IfErr result (λ failure. failure ≡ Failure.Output) }
{
    if writeln!(out, "members {members}").is_err() || out.flush().is_err() {
        return Err(Failure::Output);
    }
    Ok(())
}

/// Prints a text: the lines on the settings of a sweep, or the explanation of a file.
///
/// Failure: `Output` where `out` takes less, or its flush fails.
pub fn print_text<'a, O: Write>(text: &str, out: &mut O) -> Result<(), Failure<'a>>
    ensures printed { OnOk result (Appends (O.contents out.old) (O.contents out.new) text.now) }
    ensures failure { IfErr result (λ failure. failure ≡ Failure.Output) }
{
    if write!(out, "{text}").is_err() || out.flush().is_err() {
        return Err(Failure::Output);
    }
    Ok(())
}

/// Prints the scenario of a preset.
///
/// Failures: `Memory`; `Output` where `out` takes less, or its flush fails.
pub fn print_preset<'a, O: Write>(
    alloc: Global,
    preset: Preset,
    out: &mut O,
) -> Result<(), Failure<'a>>
    ensures printed { OnOk result (PrintsPreset preset (O.contents out.old) (O.contents out.new)) }
    ensures failed { IfErr result (PresetFails preset (out.new ≡ out.old)) }
{
    let text = match preset.text(alloc) {
        Ok(text) => text,
        Err(_) => return Err(Failure::Memory),
    };
    print_text(text.as_str(), out)
}

/// Prints the help that was asked for.
///
/// Failure: `Output` where `out` takes less, or its flush fails.
pub fn print_help<'a, O: Write>(help: &Error, out: &mut O) -> Result<(), Failure<'a>>
    ensures { IfErr result (λ failure. failure ≡ Failure.Output) }
{
    if write!(out, "{help}").is_err() || out.flush().is_err() {
        return Err(Failure::Output);
    }
    Ok(())
}

/// Prints which release of the program this is.
///
/// Failure: `Output` where `out` takes less, or its flush fails.
pub fn print_release<'a, O: Write>(release: &Release<'_>, out: &mut O) -> Result<(), Failure<'a>>
    ensures printed { OnOk result (Appends (O.contents out.old) (O.contents out.new) (release_line release.now)) }
    ensures failure { IfErr result (λ failure. failure ≡ Failure.Output) }
{
    let version = release.version;
    let sources = release.sources;
    let kit = release.kit;
    if writeln!(out, "swimsim {version} (sources {sources}, {kit})").is_err()
        || out.flush().is_err()
    {
        return Err(Failure::Output);
    }
    Ok(())
}
