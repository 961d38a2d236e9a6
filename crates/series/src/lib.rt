//! What a run's page shows, gathered as rows come, in memory that grows with members and not with rows.
#![tactic(auto)]

mod accusers;
mod answers;
mod deaths;
mod flows;
mod grid;
mod laws;
mod lines;
mod series;
mod spans;
mod spread;
mod standing;
mod story;

pub use accusers::{Accusation, Accusers, ProbeStory};
pub use answers::{Answers, Reply};
pub use deaths::{Death, DeathStories};
pub use flows::Flows;
pub use grid::Grid;
pub use laws::those_who_came_and_did_not_go_are_there;
pub use lines::TraceLine;
pub use series::Series;
pub use spans::Spans;
pub use spread::Spread;
pub use standing::{Refutation, Standing};
pub use story::Story;
