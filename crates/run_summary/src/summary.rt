//! What happened, in a few words.
ghost use Rattle.std.specs.Prelude.{◌≡◌, ◌++◌, ℕ, OnOk, IfOk, nat_lt, codes, decimal, length, count_by, min, max};
ghost use Rattle.std.specs.String.{string_bytes};
ghost use Rattle.std.specs.List.{reduce, list_any};
ghost use Rattle.reports.specs.Accounts.{IsAccountOf};
ghost use Rattle.reports.specs.Departures.{crashes_of, latencies_of};
ghost use Rattle.drawing.specs.Numbers.{grouped};
ghost use Rattle.member_timelines.specs.Numbers.{by_number};
ghost use Rattle.member_timelines.specs.Run.{IsTold};
ghost use Rattle.member_timelines.specs.Wrongly.{count_out, is_claim_about};
ghost use Rattle.run_summary.specs.Summary.{size_words, crashed_words, some_found, known_words, unfound_words, part_found, found_words, greatest_words, lasting_from, between_words, latency_words, is_found, is_earlier, is_known, crash_words, out_words, figure_start, figure, out_class, back_figure, first_figures, first_figures_of, last_figures, last_figures_of, some_figure, harness_figures, harness_figures_of, figures, summary_of, death_words, account_figures, other_figures, account_lead, account_list, account_words, account_text, summary_by, summary_text};

use base::{MemberId, Memory};
use drawing::{push_grouped, push_lasting, push_lasting_between};
use member_timelines::{Run, by_number, times_out};
use reports::{Account, DepartureReport, FalsePositive, Tallies, false_positive_count};
use scenario::Version;
use std::alloc::{AllocError, Global};
use ticks::Tick;
use trace::What;

/// Appends what happened.
pub fn push_summary(alloc: Global, text: &mut String, run: &Run) -> Result<(), Memory>
    requires { IsTold run.now }
    ensures { OnOk result (string_bytes text.new ≡ string_bytes text.old ++ summary_text run.now.tick run.now.scenario.now run.now.tallies.now) }
{
    push_by(alloc, text, run, run.scenario.version())
}

/// Appends what happened in a run of a version.
fn push_by(alloc: Global, text: &mut String, run: &Run, version: Version) -> Result<(), Memory>
    requires { IsTold run.now }
    ensures { OnOk result (string_bytes text.new ≡ string_bytes text.old ++ summary_by version run.now.tick run.now.scenario.now run.now.tallies.now) }
{
    match version {
        Version::One | Version::Two | Version::Three => push_tallied(alloc, text, run),
        Version::Four => push_accounted(alloc, text, run),
    }
}

/// Appends what happened, before version 4.
fn push_tallied(alloc: Global, text: &mut String, run: &Run) -> Result<(), Memory>
    requires { IsTold run.now }
    ensures { OnOk result (string_bytes text.new ≡ string_bytes text.old
        ++ summary_of run.now.tick run.now.scenario.now (count_out run.now.scenario.now run.now.tallies.now) run.now.tallies.now) }
{
    let out = members_out(alloc, run)?;
    push_all(text, run, out)?;
    Ok(())
}

/// Appends what happened in a run of version 4, in which members start again.
fn push_accounted(alloc: Global, text: &mut String, run: &Run) -> Result<(), Memory>
    requires { IsTold run.now }
    ensures { OnOk result (string_bytes text.new ≡ string_bytes text.old ++ account_text run.now.tick run.now.scenario.now run.now.tallies.now) }
{
    let account = run.tallies.account(alloc, run.scenario)?;
    push_account(text, run, &account)?;
    Ok(())
}

/// Appends the same by its account.
fn push_account(text: &mut String, run: &Run, account: &Account) -> Result<(), AllocError>
    requires told { IsTold run.now }
    requires account { IsAccountOf account.now run.now.scenario.now run.now.tallies.now }
    ensures { OnOk result (string_bytes text.new ≡ string_bytes text.old ++ account_text run.now.tick run.now.scenario.now run.now.tallies.now) }
{
    push_counted(
        text,
        run,
        account.crashes.as_slice(),
        account.confirmed.as_slice(),
        account.returns.len() as u64,
        account.alarms,
        account.confirmations as u64,
        account.revivals,
        account.suspicions as u64,
    )
}

/// Appends the same, where these are its crashes and its false deaths, and there are so many restarts, false alarms, false
/// deaths, times that members were declared alive again, and false suspicions.
#[tactic(auto, unfolding(crate::specs::Summary::account_words))]
fn push_counted(
    text: &mut String,
    run: &Run,
    crashes: &[DepartureReport],
    claims: &[FalsePositive],
    restarts: u64,
    alarms: u64,
    deaths: u64,
    back: u64,
    suspicions: u64,
) -> Result<(), AllocError>
    requires { IsTold run.now }
    ensures { OnOk result (string_bytes text.new ≡ string_bytes text.old ++ account_words run.now.tick run.now.scenario.now crashes.now
        claims.now restarts alarms deaths back suspicions run.now.tallies.now) }
{
    push_account_lead(text, run, crashes, claims, deaths)?;
    let count = crashes.len() as u64;
    push_account_list(
        text,
        run.tallies,
        count,
        restarts,
        alarms,
        deaths,
        back,
        suspicions,
    )?;
    Ok(())
}

/// Appends what happened in words.
#[tactic(auto, unfolding(crate::specs::Summary::account_lead))]
fn push_account_lead(
    text: &mut String,
    run: &Run,
    crashes: &[DepartureReport],
    claims: &[FalsePositive],
    deaths: u64,
) -> Result<(), AllocError>
    requires { IsTold run.now }
    ensures { OnOk result (string_bytes text.new ≡ string_bytes text.old
        ++ account_lead run.now.tick run.now.scenario.now crashes.now claims.now deaths) }
{
    text.push_str("<p class=\"lead\">")?;
    push_size(text, run)?;
    push_crashes(text, run.tick, "1 crash", " crashes", crashes, claims)?;
    push_deaths(text, deaths)?;
    Ok(())
}

/// Appends all figures.
#[tactic(auto, unfolding(crate::specs::Summary::account_list))]
fn push_account_list(
    text: &mut String,
    tallies: &Tallies,
    crashes: u64,
    restarts: u64,
    alarms: u64,
    deaths: u64,
    back: u64,
    suspicions: u64,
) -> Result<(), AllocError>
    ensures { OnOk result (string_bytes text.new ≡ string_bytes text.old ++ account_list crashes restarts alarms deaths back suspicions tallies.now) }
{
    text.push_str("</p><ul class=\"figures\">")?;
    push_account_figures(text, crashes, restarts, alarms, deaths, back)?;
    push_others(text, suspicions, tallies)?;
    push_harness_of(text, tallies)?;
    text.push_str("</ul>\n")?;
    Ok(())
}

/// Appends how often members were declared dead while they were up.
#[tactic(auto, unfolding(crate::specs::Summary::death_words))]
fn push_deaths(text: &mut String, deaths: u64) -> Result<(), AllocError>
    ensures { OnOk result (string_bytes text.new ≡ string_bytes text.old ++ death_words deaths) }
{
    if deaths == 0 {
        return text.push_str("No member that was up was declared dead.");
    }
    if deaths == 1 {
        return text.push_str("<b>A member was declared dead while it was up.</b>");
    }
    write!(
        text,
        "<b>Members were declared dead {deaths} times while they were up.</b>"
    )
}

/// Appends the figures of a run of version 4.
#[tactic(auto, unfolding(crate::specs::Summary::account_figures))]
fn push_account_figures(
    text: &mut String,
    crashes: u64,
    restarts: u64,
    alarms: u64,
    deaths: u64,
    back: u64,
) -> Result<(), AllocError>
    ensures { OnOk result (string_bytes text.new ≡ string_bytes text.old ++ account_figures crashes restarts alarms deaths back) }
{
    push_figure(text, "", crashes, "crash", "crashes")?;
    push_figure(text, "", restarts, "restart", "restarts")?;
    push_figure(text, "", alarms, "incident", "incidents")?;
    push_death_figure(text, deaths)?;
    push_back_figure(text, back)?;
    Ok(())
}

/// How many members have a false death: somebody declared them dead while they were up.
fn members_out(alloc: Global, run: &Run) -> Result<u64, Memory>
    requires { IsTold run.now }
    ensures { IfOk result (λ out. out ≡ count_out run.now.scenario.now run.now.tallies.now) }
{
    let wrongly = times_out(alloc, run)?;
    Ok(count_some(wrongly.as_slice()))
}

/// How many of these numbers are over 0.
fn count_some(numbers: &[u64]) -> u64
    ensures { result ≡ count_by (λ number. nat_lt 0 number) numbers.now }
{
    numbers.iter().filter(|number| **number > 0).count() as u64
}

/// Appends what happened, where so many members have a false death.
#[tactic(auto, unfolding(crate::specs::Summary::summary_of))]
fn push_all(text: &mut String, run: &Run, out: u64) -> Result<(), AllocError>
    requires { IsTold run.now }
    ensures { OnOk result (string_bytes text.new ≡ string_bytes text.old ++ summary_of run.now.tick run.now.scenario.now out run.now.tallies.now) }
{
    text.push_str("<p class=\"lead\">")?;
    push_size(text, run)?;
    let claims = run.tallies.false_positives(What::Confirm);
    let crashes = run.tallies.crashes();
    push_crashes(
        text,
        run.tick,
        "1 member crashed",
        " members crashed",
        crashes,
        claims,
    )?;
    push_out(text, out)?;
    text.push_str("</p><ul class=\"figures\">")?;
    push_figures(text, run.scenario.version(), run.tallies, out)?;
    text.push_str("</ul>\n")?;
    Ok(())
}

/// Appends how large the cluster is and how long it ran.
#[tactic(auto, unfolding(crate::specs::Summary::size_words))]
fn push_size(text: &mut String, run: &Run) -> Result<(), AllocError>
    requires { IsTold run.now }
    ensures { OnOk result (string_bytes text.new ≡ string_bytes text.old ++ size_words run.now.tick run.now.scenario.now) }
{
    push_with(text, run.members() as u64, " member, ", " members, ")?;
    push_with(text, run.end(), " tick", " ticks")?;
    push_lasting(text, run.tick, run.end())?;
    text.push_str(". ")?;
    Ok(())
}

/// Appends a number and its words, for one or for several.
fn push_with(text: &mut String, number: u64, one: &str, several: &str) -> Result<(), AllocError>
    ensures { OnOk result (string_bytes text.new ≡ string_bytes text.old ++ (grouped number ++ by_number number one.now several.now)) }
{
    push_grouped(text, number)?;
    text.push_str(by_number(number, one, several))
}

/// Appends how many crashed, by these words, and how soon they were detected, where these are the
/// false claims that members are dead.
#[tactic(auto, unfolding(crate::specs::Summary::crash_words))]
fn push_crashes(
    text: &mut String,
    time: Option<Tick>,
    one: &str,
    several: &str,
    crashes: &[DepartureReport],
    claims: &[FalsePositive],
) -> Result<(), AllocError>
    ensures { OnOk result (string_bytes text.new ≡ string_bytes text.old ++ crash_words time one.now several.now crashes.now claims.now) }
{
    if crashes.is_empty() {
        return text.push_str("Nobody crashed. ");
    }
    let count = crashes.len();
    push_crashed(text, one, several, count)?;
    push_found(
        text,
        count,
        count_found(crashes),
        count_known(crashes, claims),
    )?;
    push_latencies(
        text,
        time,
        least_latency(crashes),
        greatest_latency(crashes),
    )
}

/// Appends how many crashed.
#[tactic(auto, unfolding(crate::specs::Summary::crashed_words))]
fn push_crashed(text: &mut String, one: &str, several: &str, count: usize) -> Result<(), AllocError>
    ensures { OnOk result (string_bytes text.new ≡ string_bytes text.old ++ crashed_words one.now several.now count) }
{
    if count == 1 {
        return text.push_str(one);
    }
    push_several(text, several, count)
}

/// Appends a number, and what stands behind it.
fn push_several(text: &mut String, several: &str, count: usize) -> Result<(), AllocError>
    ensures { OnOk result (string_bytes text.new ≡ string_bytes text.old ++ (decimal count ++ several.now)) }
{
    write!(text, "{count}")?;
    text.push_str(several)
}

/// How many of these crashes were detected: somebody declared the member dead.
fn count_found(crashes: &[DepartureReport]) -> usize
    ensures { result ≡ count_by is_found crashes.now }
{
    crashes
        .iter()
        .filter(|crash| crash.detection.confirm.is_some())
        .count()
}

/// How many of these crashes weren't detected, but are of members of which a false claim was made.
fn count_known(crashes: &[DepartureReport], claims: &[FalsePositive]) -> usize
    ensures { result ≡ count_by (is_known claims.now) crashes.now }
{
    crashes
        .iter()
        .filter(|crash| is_known(claims, crash))
        .count()
}

/// Whether a crash wasn't detected, but a false claim had been made of its member by then.
fn is_known(claims: &[FalsePositive], crash: &DepartureReport) -> bool
    ensures { result ≡ is_known claims.now crash.now }
{
    if crash.detection.confirm.is_some() {
        return false;
    }
    is_claimed(claims, crash)
}

/// Whether one of these claims is about a crash's member, and was made by then.
fn is_claimed(claims: &[FalsePositive], crash: &DepartureReport) -> bool
    ensures { result ≡ list_any (is_earlier crash.now) claims.now }
{
    claims.iter().any(|claim| is_earlier(crash, claim))
}

/// Whether a claim is about a crash's member, and was made by then.
fn is_earlier(crash: &DepartureReport, claim: &FalsePositive) -> bool
    ensures { result ≡ is_earlier crash.now claim.now }
{
    is_about(claim, crash.member) && claim.at <= crash.at
}

/// Whether a claim is about a member.
fn is_about(claim: &FalsePositive, member: MemberId) -> bool
    ensures { result ≡ is_claim_about member claim.now }
{
    match claim.about {
        Some(about) => about == member,
        None => false,
    }
}

/// Appends how many of so many crashes were detected, and how many others had been declared dead before.
#[tactic(auto, unfolding(crate::specs::Summary::found_words))]
fn push_found(text: &mut String, count: usize, found: usize, known: usize) -> Result<(), AllocError>
    ensures { OnOk result (string_bytes text.new ≡ string_bytes text.old ++ found_words count found known) }
{
    if found == 0 {
        return push_unfound(text, count, known);
    }
    if found < count {
        return push_part_found(text, found, known);
    }
    Ok(())
}

/// Appends how many of so many crashes, none of which was detected, had been declared dead before.
#[tactic(auto, unfolding(crate::specs::Summary::unfound_words))]
fn push_unfound(text: &mut String, count: usize, known: usize) -> Result<(), AllocError>
    ensures { OnOk result (string_bytes text.new ≡ string_bytes text.old ++ unfound_words count known) }
{
    if known == 0 {
        return text.push_str(", undetected. ");
    }
    if known == count {
        return text.push_str(", already declared dead. ");
    }
    write!(
        text,
        ", {known} already declared dead, the others undetected. "
    )
}

/// Appends how many crashes were detected, and how many others had been declared dead before.
#[tactic(auto, unfolding(crate::specs::Summary::part_found))]
fn push_part_found(text: &mut String, found: usize, known: usize) -> Result<(), AllocError>
    ensures { OnOk result (string_bytes text.new ≡ string_bytes text.old ++ part_found found known) }
{
    push_some_found(text, found)?;
    push_known(text, known)?;
    Ok(())
}

/// Appends how many had been declared dead before.
#[tactic(auto, unfolding(crate::specs::Summary::known_words))]
fn push_known(text: &mut String, known: usize) -> Result<(), AllocError>
    ensures { OnOk result (string_bytes text.new ≡ string_bytes text.old ++ known_words known) }
{
    if known == 0 {
        return Ok(());
    }
    write!(text, ", {known} already declared dead")
}

/// Appends that only so many of the crashes were detected.
#[tactic(auto, unfolding(crate::specs::Summary::some_found))]
fn push_some_found(text: &mut String, found: usize) -> Result<(), AllocError>
    ensures { OnOk result (string_bytes text.new ≡ string_bytes text.old ++ some_found found) }
{
    write!(text, ", {found}")?;
    text.push_str(by_number(
        found as u64,
        " of them was detected",
        " of them were detected",
    ))?;
    Ok(())
}

fn least_latency(crashes: &[DepartureReport]) -> Option<u64>
    ensures { result ≡ reduce min (latencies_of crashes.now) }
{
    crashes.iter().filter_map(|crash| crash.latency()).min()
}

fn greatest_latency(crashes: &[DepartureReport]) -> Option<u64>
    ensures { result ≡ reduce max (latencies_of crashes.now) }
{
    crashes.iter().filter_map(|crash| crash.latency()).max()
}

/// Appends how long it took until crashes were detected, at least and at most, where some were.
#[tactic(auto, unfolding(crate::specs::Summary::latency_words))]
fn push_latencies(
    text: &mut String,
    time: Option<Tick>,
    least: Option<u64>,
    greatest: Option<u64>,
) -> Result<(), AllocError>
    ensures { OnOk result (string_bytes text.new ≡ string_bytes text.old ++ latency_words time least greatest) }
{
    let Some(least) = least else {
        return Ok(());
    };
    let Some(greatest) = greatest else {
        return Ok(());
    };
    push_between(text, time, least, greatest)
}

/// Appends between which times crashes were detected.
#[tactic(auto, unfolding(crate::specs::Summary::between_words))]
fn push_between(
    text: &mut String,
    time: Option<Tick>,
    least: u64,
    greatest: u64,
) -> Result<(), AllocError>
    ensures { OnOk result (string_bytes text.new ≡ string_bytes text.old ++ between_words time least greatest) }
{
    text.push_str(": first declared dead after ")?;
    push_grouped(text, least)?;
    push_greatest(text, least, greatest)?;
    text.push_str(" ticks")?;
    push_lasting_from(text, time, least, greatest)?;
    text.push_str(". ")?;
    Ok(())
}

/// Appends how long these times last, where it is known how long a tick does.
fn push_lasting_from(
    text: &mut String,
    time: Option<Tick>,
    least: u64,
    greatest: u64,
) -> Result<(), AllocError>
    ensures { OnOk result (string_bytes text.new ≡ string_bytes text.old ++ lasting_from time least greatest) }
{
    if greatest > least {
        return push_lasting_between(text, time, least, greatest);
    }
    push_lasting(text, time, least)
}

/// Appends the greatest time, where it is another than the least.
fn push_greatest(text: &mut String, least: u64, greatest: u64) -> Result<(), AllocError>
    ensures { OnOk result (string_bytes text.new ≡ string_bytes text.old ++ greatest_words least greatest) }
{
    if greatest > least {
        return push_to(text, greatest);
    }
    Ok(())
}

/// Appends up to which time.
fn push_to(text: &mut String, greatest: u64) -> Result<(), AllocError>
    ensures { OnOk result (string_bytes text.new ≡ string_bytes text.old ++ (codes " to " ++ grouped greatest)) }
{
    text.push_str(" to ")?;
    push_grouped(text, greatest)?;
    Ok(())
}

/// Appends how many members have a false death.
#[tactic(auto, unfolding(crate::specs::Summary::out_words))]
fn push_out(text: &mut String, out: u64) -> Result<(), AllocError>
    ensures { OnOk result (string_bytes text.new ≡ string_bytes text.old ++ out_words out) }
{
    if out == 0 {
        return text.push_str("No member that was up was declared dead.");
    }
    if out == 1 {
        return text.push_str("<b>1 member was declared dead while it was up.</b>");
    }
    write!(
        text,
        "<b>{out} members were declared dead while they were up.</b>"
    )
}

/// Appends the figures, where so many members have a false death.
#[tactic(auto, unfolding(crate::specs::Summary::figures))]
fn push_figures(
    text: &mut String,
    version: Version,
    tallies: &Tallies,
    out: u64,
) -> Result<(), AllocError>
    ensures { OnOk result (string_bytes text.new ≡ string_bytes text.old ++ figures version out tallies.now) }
{
    push_first_of(text, tallies, out)?;
    push_back(text, version, tallies)?;
    push_last_of(text, tallies)?;
    push_harness_of(text, tallies)?;
    Ok(())
}

/// Appends how many members crashed, how many have a false death, and how many false deaths there are.
fn push_first_of(text: &mut String, tallies: &Tallies, out: u64) -> Result<(), AllocError>
    ensures { OnOk result (string_bytes text.new ≡ string_bytes text.old ++ first_figures_of out tallies.now) }
{
    push_first(
        text,
        tallies.crashes().len() as u64,
        out,
        false_positive_count(tallies, What::Confirm) as u64,
    )
}

/// Appends these figures.
#[tactic(auto, unfolding(crate::specs::Summary::first_figures))]
fn push_first(text: &mut String, crashed: u64, out: u64, deaths: u64) -> Result<(), AllocError>
    ensures { OnOk result (string_bytes text.new ≡ string_bytes text.old ++ first_figures crashed out deaths) }
{
    push_figure(text, "", crashed, "member crashed", "members crashed")?;
    push_out_figure(text, out)?;
    push_death_figure(text, deaths)?;
    Ok(())
}

/// Appends the figure of the members that have a false death.
fn push_out_figure(text: &mut String, out: u64) -> Result<(), AllocError>
    ensures { OnOk result (string_bytes text.new ≡ string_bytes text.old
        ++ figure (out_class out) out (codes "member with a false death") (codes "members with a false death")) }
{
    push_figure(
        text,
        out_class(out),
        out,
        "member with a false death",
        "members with a false death",
    )
}

/// Appends the figure of the false deaths.
fn push_death_figure(text: &mut String, deaths: u64) -> Result<(), AllocError>
    ensures { OnOk result (string_bytes text.new ≡ string_bytes text.old
        ++ figure (out_class deaths) deaths (codes "false death") (codes "false deaths")) }
{
    push_figure(
        text,
        out_class(deaths),
        deaths,
        "false death",
        "false deaths",
    )
}

/// Appends the figures of the protocol and of the trace.
fn push_last_of(text: &mut String, tallies: &Tallies) -> Result<(), AllocError>
    ensures { OnOk result (string_bytes text.new ≡ string_bytes text.old ++ last_figures_of tallies.now) }
{
    push_others(
        text,
        false_positive_count(tallies, What::Suspect) as u64,
        tallies,
    )
}

/// Appends the same, where there are so many false suspicions.
fn push_others(text: &mut String, suspicions: u64, tallies: &Tallies) -> Result<(), AllocError>
    ensures { OnOk result (string_bytes text.new ≡ string_bytes text.old ++ other_figures suspicions tallies.now) }
{
    push_last(
        text,
        suspicions,
        tallies.rows_of(What::Refute),
        tallies.rows_of(What::Fail),
        tallies.worst_health(),
        tallies.rows(),
    )
}

/// Appends these figures of the protocol and of the trace.
#[tactic(auto, unfolding(crate::specs::Summary::last_figures))]
fn push_last(
    text: &mut String,
    suspicions: u64,
    refutations: u64,
    fails: u64,
    worst: u64,
    rows: u64,
) -> Result<(), AllocError>
    ensures { OnOk result (string_bytes text.new ≡ string_bytes text.old ++ last_figures suspicions refutations fails worst rows) }
{
    push_figure(text, "", suspicions, "false suspicion", "false suspicions")?;
    push_figure(text, "", refutations, "refutation", "refutations")?;
    push_figure(text, "", fails, "failed probe", "failed probes")?;
    push_figure(text, "", worst, "worst health", "worst health")?;
    push_figure(text, "", rows, "row in the trace", "rows in the trace")?;
    Ok(())
}

/// Appends the figures of the rows that before version 4 only the members of a harness write.
fn push_harness_of(text: &mut String, tallies: &Tallies) -> Result<(), AllocError>
    ensures { OnOk result (string_bytes text.new ≡ string_bytes text.old ++ harness_figures_of tallies.now) }
{
    push_harness(
        text,
        tallies.rows_of(What::Left),
        tallies.rows_of(What::Forget),
        tallies.rows_of(What::Reconnect),
    )
}

/// Appends those of these figures that aren't 0.
#[tactic(auto, unfolding(crate::specs::Summary::harness_figures))]
fn push_harness(
    text: &mut String,
    left: u64,
    forgotten: u64,
    reconnects: u64,
) -> Result<(), AllocError>
    ensures { OnOk result (string_bytes text.new ≡ string_bytes text.old ++ harness_figures left forgotten reconnects) }
{
    push_some(
        text,
        left,
        "row <code>left</code>",
        "rows <code>left</code>",
    )?;
    push_some(
        text,
        forgotten,
        "row <code>forget</code>",
        "rows <code>forget</code>",
    )?;
    push_some(
        text,
        reconnects,
        "row <code>reconnect</code>",
        "rows <code>reconnect</code>",
    )?;
    Ok(())
}

/// Appends a figure without a class, where it isn't 0.
fn push_some(text: &mut String, number: u64, one: &str, several: &str) -> Result<(), AllocError>
    ensures { OnOk result (string_bytes text.new ≡ string_bytes text.old ++ some_figure number one.now several.now) }
{
    if number == 0 {
        return Ok(());
    }
    push_figure(text, "", number, one, several)
}

/// The class of a figure of false deaths.
fn out_class(out: u64) -> &'static str
    ensures { result.now ≡ out_class out }
{
    if out > 0 { "bad" } else { "" }
}

/// Appends how often members declared others alive again, where the version has that.
fn push_back(text: &mut String, version: Version, tallies: &Tallies) -> Result<(), AllocError>
    ensures { OnOk result (string_bytes text.new ≡ string_bytes text.old ++ back_figure version tallies.now) }
{
    match version {
        Version::One | Version::Two => Ok(()),
        Version::Three | Version::Four => push_back_figure(text, tallies.revivals()),
    }
}

/// Appends how often members declared others alive again.
fn push_back_figure(text: &mut String, back: u64) -> Result<(), AllocError>
    ensures { OnOk result (string_bytes text.new ≡ string_bytes text.old
        ++ figure (codes "") back (codes "time declared alive again") (codes "times declared alive again")) }
{
    push_figure(
        text,
        "",
        back,
        "time declared alive again",
        "times declared alive again",
    )
}

/// Appends one figure, with its words for one and for several.
#[tactic(auto, unfolding(crate::specs::Summary::figure))]
fn push_figure(
    text: &mut String,
    class: &str,
    number: u64,
    one: &str,
    several: &str,
) -> Result<(), AllocError>
    ensures { OnOk result (string_bytes text.new ≡ string_bytes text.old ++ figure class.now number one.now several.now) }
{
    open_figure(text, class)?;
    push_grouped(text, number)?;
    text.push_str("</b><span>")?;
    text.push_str(by_number(number, one, several))?;
    text.push_str("</span></li>")?;
    Ok(())
}

/// Begins a figure of a class.
#[tactic(auto, unfolding(crate::specs::Summary::figure_start))]
fn open_figure(text: &mut String, class: &str) -> Result<(), AllocError>
    ensures { OnOk result (string_bytes text.new ≡ string_bytes text.old ++ figure_start class.now) }
{
    write!(text, "<li class=\"{class}\"><b>")
}
