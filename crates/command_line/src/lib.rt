//! What the words of a command line ask for, and what a command prints.
#![tactic(auto)]

mod answers;
mod chained;
mod commands;
mod division;
mod driving;
mod expanding;
mod explaining;
mod failure;
mod initial;
mod joining;
mod lasting;
mod paging;
mod printing;
mod release;
mod running;
mod sweeping;
pub mod system;
mod telling;
mod words;
mod written;

pub use answers::{AnswerFault, DriveStop};
pub use division::{division_asked, workers_asked};
pub use driving::DriveWords;
pub use explaining::ExplainWords;
pub use failure::{Failure, ShardFault, refuse};
pub use joining::JoinWords;
pub use paging::PageWords;
pub use printing::{
    print_help, print_members, print_preset, print_release, print_rows, print_text,
};
pub use release::Release;
pub use words::{Asked, RunWords, Split, SweepWords, matches_of, parse};
