//! The statistics of a setting of which something may be wanted.
ghost use Rattle.std.specs.Prelude.{◌≡◌, ◌≤◌, ◌++◌, IfSome, IsNone, codes};
ghost use Rattle.std.specs.Option.{option_map};
ghost use Rattle.goals.specs.Statistics.{word_of, figure_of, parts_of};
ghost use Rattle.goals.specs.declared.statistic.Statistic.{Statistic as AnyStatistic};

use figures::SettingSummary;
use incident_figures::IncidentSummary;

/// A statistic of a setting, with the name of its column among the lines of settings; `out` is the share of the runs with
/// a false death, from 0 to 1. Only settings of version 4 have the last four.
#[derive(Clone, Copy, Debug, PartialEq, Eq)]
pub enum Statistic {
    Out,
    SuspectP50,
    ConfirmP50,
    ConfirmP99,
    ConfirmGreatest,
    LastP50,
    LastGreatest,
    FalseSuspect,
    ThrownOut,
    Messages,
    Alarms,
    Deaths,
    DeathsWell,
    DeathsDay,
}

impl Statistic {
    /// The statistic whose name and a less-than sign these are, as `out<`.
    pub(crate) fn before(word: &str) -> Option<Statistic>
        ensures some { IfSome result (λ statistic. word_of statistic ++ codes "<" ≡ word.now) }
        ensures none { IsNone result → (statistic : AnyStatistic) → ¬ (word_of statistic ++ codes "<" ≡ word.now) }
    {
        match word {
            "out<" => Some(Statistic::Out),
            "suspect_p50<" => Some(Statistic::SuspectP50),
            "confirm_p50<" => Some(Statistic::ConfirmP50),
            "confirm_p99<" => Some(Statistic::ConfirmP99),
            "confirm_greatest<" => Some(Statistic::ConfirmGreatest),
            "last_p50<" => Some(Statistic::LastP50),
            "last_greatest<" => Some(Statistic::LastGreatest),
            "false_suspect<" => Some(Statistic::FalseSuspect),
            "thrown_out<" => Some(Statistic::ThrownOut),
            "messages<" => Some(Statistic::Messages),
            "alarms<" => Some(Statistic::Alarms),
            "deaths<" => Some(Statistic::Deaths),
            "deaths_well<" => Some(Statistic::DeathsWell),
            "deaths_day<" => Some(Statistic::DeathsDay),
            _ => None,
        }
    }

    /// The figure of a setting: times in ticks and members as they are, rates in hundredths. `out` and `deaths_day` have none.
    pub(crate) fn figure(self, setting: &SettingSummary) -> Option<u128>
        ensures { result ≡ figure_of self setting.now }
    {
        match self {
            Statistic::Out => None,
            Statistic::SuspectP50 => ticks(setting.suspect_p50),
            Statistic::ConfirmP50 => ticks(setting.confirm_p50),
            Statistic::ConfirmP99 => ticks(setting.confirm_p99),
            Statistic::ConfirmGreatest => ticks(setting.confirm_greatest),
            Statistic::LastP50 => ticks(setting.last_p50),
            Statistic::LastGreatest => ticks(setting.last_greatest),
            Statistic::FalseSuspect => Some(setting.false_suspect),
            Statistic::ThrownOut => Some(setting.thrown_out),
            Statistic::Messages => setting.messages,
            Statistic::Alarms => alarms(setting.incidents),
            Statistic::Deaths => deaths(setting.incidents),
            Statistic::DeathsWell => deaths_well(setting.incidents),
            Statistic::DeathsDay => None,
        }
    }

    /// How many parts of its figure make one.
    pub(crate) fn parts(self) -> u128
        ensures parts { result ≡ parts_of self }
        ensures few { result ≤ 100 }
    {
        match self {
            Statistic::FalseSuspect | Statistic::Messages | Statistic::Alarms => 100,
            _ => 1,
        }
    }
}

/// False alarms a run, where incidents are counted.
fn alarms(incidents: Option<IncidentSummary>) -> Option<u128>
    ensures { result ≡ option_map (λ incidents. incidents.alarms) incidents }
{
    match incidents {
        Some(told) => Some(told.alarms),
        None => None,
    }
}

/// False deaths, likewise.
fn deaths(incidents: Option<IncidentSummary>) -> Option<u128>
    ensures { result ≡ option_map (λ incidents. incidents.deaths) incidents }
{
    match incidents {
        Some(told) => Some(told.deaths),
        None => None,
    }
}

/// Those of members that were well, likewise.
fn deaths_well(incidents: Option<IncidentSummary>) -> Option<u128>
    ensures { result ≡ option_map (λ incidents. incidents.deaths_well) incidents }
{
    match incidents {
        Some(told) => Some(told.deaths_well),
        None => None,
    }
}

/// A time as a figure.
pub(crate) fn ticks(time: Option<u64>) -> Option<u128>
    ensures { result ≡ time }
{
    match time {
        Some(ticks) => Some(u128::from(ticks)),
        None => None,
    }
}
