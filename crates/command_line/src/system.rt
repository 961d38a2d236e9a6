//! The words that the system hands to a program.
ghost use Rattle.std.specs.Prelude.{◌≡◌, ◌⊎◌, IfErr};

use crate::failure::Failure;
use std::env;
use std::env::FillError;
use std::io::ErrorKind;
use std::rt::Env;

/// What a program is given, without the first of its arguments: that is its own name, which may be any bytes.
#[derive(Drop)]
struct AfterName<'r, R> {
    runtime: &'r R,
}

impl<R: Env> Env for AfterName<'_, R> {
    fn arg(&self, i: usize, buf: &mut [u8]) -> Result<usize, FillError> {
        match i.checked_add(1) {
            Some(next) => self.runtime.arg(next, buf),
            None => Err(FillError::NotPresent),
        }
    }

    fn var(&self, name: &str, buf: &mut [u8]) -> Result<usize, FillError> {
        self.runtime.var(name, buf)
    }

    fn var_at(&self, i: usize, buf: &mut [u8]) -> Result<usize, FillError> {
        self.runtime.var_at(i, buf)
    }
}

/// The words of the program's command line, without its own name. Words that are no text are
/// answered as no command.
///
/// Failures: `Usage` where they are no text; `Memory`.
pub fn words<R: Env + AllocGlobal>(runtime: &R) -> Result<Vec<String>, Failure<'static>>
    ensures { IfErr result (λ failure. (failure ≡ Failure.Usage) ⊎ (failure ≡ Failure.Memory)) }
{
    let given = (AfterName { runtime }, runtime.alloc());
    let args = match env::args(&given) {
        Ok(args) => args,
        Err(error) if error.kind() == ErrorKind::OutOfMemory => return Err(Failure::Memory),
        Err(_) => return Err(Failure::Usage),
    };
    match args.collect(runtime.alloc()) {
        Ok(words) => Ok(words),
        Err(_) => Err(Failure::Memory),
    }
}
