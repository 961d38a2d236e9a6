//! Runs of a scenario by several threads: each part of the cluster is a logical process.
//!
//! Once a round a process sends each other what went out of its window and the first moment that is left; so each knows how
//! far its next window goes, with no driver. The processes lie on a board, from which the workers take them. Their rows go
//! over a relay each to the calling thread, which writes.
#![tactic(auto)]

mod batch_receiver;
mod batch_sender;
mod batches;
mod board_item;
mod closed_relay;
mod closing;
mod connections;
mod crew;
mod event_count;
mod exchange;
mod hold;
mod of_run;
mod opening;
mod pace;
mod peers;
mod process;
mod protocols;
mod relay_ends;
mod ring;
mod row_batch;
mod row_relay;
mod rows;
mod run;
mod spin_policy;
mod threads;
mod window_message;
mod worker;
mod writer;

pub use closed_relay::RunAccount;
pub use run::run_by_rings;
