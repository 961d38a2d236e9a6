//! The objects of two settings.
use crate::objects::setting_objects;
use figures::{ColumnSet, Histogram, SettingSummary};
use goals::Want;
use incident_figures::{DayRates, IncidentSummary};
use std::test::Fail;
use sweep_plan::Plan;

/// Three runs, two of them with a false death; not all crashes were confirmed.
const THREE_RUNS: SettingSummary = SettingSummary {
    runs: 3,
    crashes: 6,
    suspect_p5: Some(0),
    suspect_p50: Some(150),
    suspect_p95: Some(200),
    confirm_p5: Some(400),
    confirm_p50: Some(500),
    confirm_p95: None,
    confirm_p99: None,
    confirm_greatest: None,
    confirm_times: Histogram {
        width: 26,
        bins: [0, 0, 0, 0, 0, 0, 0, 0, 0, 0, 0, 0, 0, 0, 0, 2, 0, 0, 0, 2],
    },
    last_p5: Some(500),
    last_p50: Some(950),
    last_p95: None,
    last_greatest: None,
    false_suspect: 133,
    thrown_out: 2,
    revived: 2,
    incidents: Some(IncidentSummary {
        alarms: 166,
        deaths: 4,
        deaths_well: 1,
        day: Some(DayRates {
            rate: 11520000,
            low: 4480123,
            high: 29620005,
        }),
    }),
    runs_with: 2,
    share_low: 208,
    share_high: 938,
    deaths: 67,
    deaths_low: 18,
    deaths_high: 243,
    messages: Some(5),
};

/// One run that ends at moment 0.
const ONE_RUN: SettingSummary = SettingSummary {
    runs: 1,
    crashes: 0,
    suspect_p5: None,
    suspect_p50: None,
    suspect_p95: None,
    confirm_p5: None,
    confirm_p50: None,
    confirm_p95: None,
    confirm_p99: None,
    confirm_greatest: None,
    confirm_times: Histogram {
        width: 1,
        bins: [0; 20],
    },
    last_p5: None,
    last_p50: None,
    last_p95: None,
    last_greatest: None,
    false_suspect: 0,
    thrown_out: 0,
    revived: 0,
    incidents: None,
    runs_with: 0,
    share_low: 0,
    share_high: 793,
    deaths: 0,
    deaths_low: 0,
    deaths_high: 384,
    messages: None,
};

/// Their lines, where `confirm_p50<=500` is wanted.
const LINES: &str =
    "{\"swim.period\":200,\"lifeguard.probe\":true,\"runs\":3,\"suspect_p50\":150,\"confirm_p50\":500,\
\"confirm_p99\":null,\"confirm_greatest\":null,\"last_p50\":950,\"last_greatest\":null,\"false_suspect\":1.33,\
\"thrown_out\":2,\"revived\":2,\"alarms\":1.66,\"deaths\":4,\"deaths_well\":1,\"deaths_day\":115200.00,\"day_low\":44801.23,\
\"day_high\":296200.05,\"runs_with\":2,\"share_low\":20.8,\"share_high\":93.8,\"messages\":0.05,\"front\":true,\
\"meets\":\"yes\",\"best\":true}
{\"swim.period\":250,\"lifeguard.probe\":true,\"runs\":1,\"suspect_p50\":null,\"confirm_p50\":null,\
\"confirm_p99\":null,\"confirm_greatest\":null,\"last_p50\":null,\"last_greatest\":null,\"false_suspect\":0.00,\
\"thrown_out\":0,\"revived\":0,\"alarms\":null,\"deaths\":null,\"deaths_well\":null,\"deaths_day\":null,\"day_low\":null,\
\"day_high\":null,\"runs_with\":0,\"share_low\":0.0,\"share_high\":79.3,\"messages\":null,\"front\":true,\
\"meets\":\"no\",\"best\":false}
";

#[test]
fn settings_are_objects(rt: HostRuntime) -> Result<(), Fail> {
    let words = ["swim.period=200,250", "lifeguard.probe=true"];
    let plan = Plan::read(rt.alloc(), &words, None, None)?;
    let want = Want::read("confirm_p50<=500").expect(&rt, "a want");
    if plan.settings() != 2 {
        panic!(&rt; "two cases");
    }
    let text = setting_objects(
        rt.alloc(),
        ColumnSet::WithIncidents,
        &plan,
        &[want],
        &[THREE_RUNS, ONE_RUN],
    )?;
    assert!(rt; text.as_str() == LINES, "{text}");
    Ok(())
}
