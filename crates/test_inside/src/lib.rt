//! Tests of what the inside alone can show.
//!
//! There are three kinds: of the pieces below a run (queues, the board, draws, events that nobody sends), of parts and how far
//! they may run, worked out by hand, and of whole runs and sweeps (runs with gates, sinks that fail or want flushing, and what
//! no command makes). What the program's words and bytes show stands as data under `tests/`.
#![tactic(auto)]

#[cfg(test)]
mod alone_tests;
#[cfg(test)]
mod board_tests;
#[cfg(test)]
mod book;
#[cfg(test)]
mod bounds_tests;
#[cfg(test)]
mod choices_tests;
#[cfg(test)]
mod far_sites_tests;
#[cfg(test)]
mod gate_tests;
#[cfg(test)]
mod horizons_tests;
#[cfg(test)]
mod into_sinks;
#[cfg(test)]
mod part_tests;
#[cfg(test)]
mod printing_tests;
#[cfg(test)]
mod queue_tests;
#[cfg(test)]
mod refusals_tests;
#[cfg(test)]
mod runs_tests;
#[cfg(test)]
mod sink_tests;
#[cfg(test)]
mod strays_tests;
#[cfg(test)]
mod streams_tests;
#[cfg(test)]
mod sweep_tests;
#[cfg(test)]
mod texts;
#[cfg(test)]
mod ways;
