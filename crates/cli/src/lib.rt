//! The program: runs the command that the words ask for, over given files and writers, and returns the exit status.
#![tactic(auto)]

mod processors;
mod program;
mod simulation;
mod surroundings;
pub mod system;

pub use advice::Surroundings;
pub use command_line::{
    AnswerFault, Asked, DriveStop, DriveWords, ExplainWords, Failure, JoinWords, PageWords,
    Release, RunWords, ShardFault, Split, SweepWords, division_asked, parse, refuse, workers_asked,
};
pub use files::{FileFault, Files, PairFault, ReadFault, TripleFault, testing};
pub use program::command;
pub use scenario_files::check;
