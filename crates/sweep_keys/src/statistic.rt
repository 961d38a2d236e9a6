//! What is drawn of a setting.
ghost use Rattle.std.specs.Prelude.{◌≡◌};
ghost use Rattle.sweep_keys.specs.Lines.{statistic_words, early, median, late};

use figures::SettingSummary;

/// What is drawn of a setting.
#[derive(Clone, Copy)]
pub enum Statistic {
    /// The time until a crash was first suspected.
    Suspected,
    /// The time until it was first confirmed.
    Confirmed,
    /// The time until it was last confirmed.
    Last,
}

impl Statistic {
    /// What it is, in words.
    #[tactic(auto, unfolding(crate::specs::Lines::statistic_words))]
    pub(crate) fn words(self) -> &'static str
        ensures { result.now ≡ statistic_words self }
    {
        match self {
            Statistic::Suspected => "First suspected: median, 5th to 95th",
            Statistic::Confirmed => "First confirmed: median, 5th to 95th",
            Statistic::Last => "Last confirmed: median, 5th to 95th",
        }
    }

    /// Its 5th percentile, where a setting has one.
    #[tactic(auto, unfolding(crate::specs::Lines::early))]
    pub(crate) fn early(self, setting: &SettingSummary) -> Option<u64>
        ensures { result ≡ early self setting.now }
    {
        match self {
            Statistic::Suspected => setting.suspect_p5,
            Statistic::Confirmed => setting.confirm_p5,
            Statistic::Last => setting.last_p5,
        }
    }

    /// Its median, where a setting has one.
    #[tactic(auto, unfolding(crate::specs::Lines::median))]
    pub(crate) fn median(self, setting: &SettingSummary) -> Option<u64>
        ensures { result ≡ median self setting.now }
    {
        match self {
            Statistic::Suspected => setting.suspect_p50,
            Statistic::Confirmed => setting.confirm_p50,
            Statistic::Last => setting.last_p50,
        }
    }

    /// Its 95th percentile, where a setting has one.
    #[tactic(auto, unfolding(crate::specs::Lines::late))]
    pub(crate) fn late(self, setting: &SettingSummary) -> Option<u64>
        ensures { result ≡ late self setting.now }
    {
        match self {
            Statistic::Suspected => setting.suspect_p95,
            Statistic::Confirmed => setting.confirm_p95,
            Statistic::Last => setting.last_p95,
        }
    }
}
