//! A gate, which workers call for each window before they run it; tests use it to observe or delay a run's workers.
ghost use Rattle.std.specs.Prelude.{⊤, ◌≡◌};

use base::Moment;
use std::marker::Sync;

/// What a worker calls for each part that it has got, with the bound of that part's window. The gate's type says which
/// calls it may get: whoever hands it to a run must allow for each worker of that, and for each window of a part with
/// its bound.
pub trait Gate: Sync {
    ghost use Rattle.std.specs.Prelude.{ℕ};

    // which workers may enter
    ghost knows: { ℕ → Type 0 };

    // which windows may be entered: of which parts, each below which bound
    ghost awaits: { ℕ → ℕ → ℕ → Type 0 };

    /// The worker has got the part for the window and is about to run its events of earlier moments than the bound.
    /// Workers and parts count from 0, windows from 1, each by the number of the one before it and 1.
    fn enter(&self, worker: usize, window: u64, part: usize, bound: Moment)
        requires worker { knows worker }
        requires window { awaits window part bound };
}

/// That a gate was called for a window. `enter` alone makes one, so whoever is handed it comes after the gate.
#[derive(Clone, Copy)]
pub struct Entered {
    /// The window's number, from 1.
    pub window: u64,
    /// That of its part.
    pub part: usize,
    /// Before which moment it stays.
    pub bound: Moment,
    seal: Seal,
}

/// What nobody else can name.
#[derive(Clone, Copy)]
struct Seal;

/// Calls the gate: the worker has got the part for the window, and is about to run its events of earlier moments
/// than the bound.
pub fn enter<G: Gate>(gate: &G, worker: usize, window: u64, part: usize, bound: Moment) -> Entered
    requires worker { G.knows worker }
    requires window { G.awaits window part bound }
    ensures window { result.window ≡ window }
    ensures part { result.part ≡ part }
    ensures bound { result.bound ≡ bound }
{
    gate.enter(worker, window, part, bound);
    Entered {
        window,
        part,
        bound,
        seal: Seal,
    }
}

/// A gate at which nobody waits, and which may get any call.
#[derive(Clone, Copy, Debug, Drop)]
pub struct OpenGate;

impl Gate for OpenGate {
    ghost knows = { λ _. ⊤ };

    ghost awaits = { λ _ _ _. ⊤ };

    fn enter(&self, _worker: usize, _window: u64, _part: usize, _bound: Moment) {}
}
