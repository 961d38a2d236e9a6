//! The kinds of message, and how many there are of each in each span.
ghost use Rattle.std.specs.Prelude.{◌≡◌, ◌-◌, ◌<◌, ◌^◌, ◌++◌, true, OnOk, IfOk, codes, count_by};
ghost use Rattle.std.specs.String.{string_bytes};
ghost use Rattle.std.specs.List.{list_all};
ghost use Rattle.reports.specs.Text.{message_kinds};
ghost use Rattle.series.specs.Series.{sends_in, loses_in};
ghost use Rattle.series.specs.Spans.{span_width};
ghost use Rattle.drawing.specs.Shapes.{area, plot_opening};
ghost use Rattle.member_timelines.specs.Heights.{stacked};
ghost use Rattle.member_timelines.specs.Lanes.{moments};
ghost use Rattle.member_timelines.specs.Run.{IsTold};
ghost use Rattle.run_page.specs.Stacks.{greatest};
ghost use Rattle.run_page.specs.Traffic.{class_of, is_counted, sent_by_span, lost_by_span, sent_tops, lost_tops, sent_areas};

use base::Memory;
use drawing::{open_plot, push_area};
use member_timelines::{Run, flat, greatest, stacked};
use reports::message_kinds;
use std::alloc::{AllocError, Global};
use trace::What;

/// The class of a kind of message.
pub(crate) fn class_of(kind: What) -> &'static str
    ensures { result.now ≡ class_of kind }
{
    match kind {
        What::Ping => "one",
        What::Ack => "two",
        What::PingReq => "five",
        What::Nack => "four",
        What::Join => "three",
        What::Welcome => "six",
        What::Bye | What::Reconnect => "seven",
        What::Gossip => "eight",
        What::Push => "nine",
        What::Pull => "ten",
        What::Call => "eleven",
        _ => "twelve",
    }
}

/// The kinds of message of the scenario's version.
pub(crate) fn kinds(run: &Run) -> &'static [What]
    ensures value { result.now ≡ message_kinds run.now.scenario.now.version }
    ensures counted { list_all is_counted result.now ≡ true }
{
    message_kinds(run.scenario.version())
}

/// How many messages of a kind were sent in a span.
pub(crate) fn sent_in(run: &Run, kind: What, span: usize) -> u64
    requires told { IsTold run.now }
    requires counted { is_counted kind ≡ true }
    requires few { span < 120 }
    ensures { result ≡ count_by (sends_in run.now.scenario.now kind span) run.now.tallies.now }
{
    run.series.sent(kind, span)
}

/// How many messages of a kind were lost in a span.
pub(crate) fn lost_in(run: &Run, kind: What, span: usize) -> u64
    requires told { IsTold run.now }
    requires counted { is_counted kind ≡ true }
    requires few { span < 120 }
    ensures { result ≡ count_by (loses_in run.now.scenario.now kind span) run.now.tallies.now }
{
    run.series.lost(kind, span)
}

/// How many messages of a kind were sent in each span.
fn sent_by_span(alloc: Global, run: &Run, kind: What) -> Result<Vec<u64>, Memory>
    requires told { IsTold run.now }
    requires counted { is_counted kind ≡ true }
    ensures { IfOk result (λ list. list.items ≡ sent_by_span run.now.scenario.now run.now.tallies.now kind) }
{
    let mut counts = Vec::new(alloc);
    for span in 0..run.spans() {
        counts.push(sent_in(run, kind, span))?;
    }
    Ok(counts)
}

/// How many messages of a kind were lost in each span.
fn lost_by_span(alloc: Global, run: &Run, kind: What) -> Result<Vec<u64>, Memory>
    requires told { IsTold run.now }
    requires counted { is_counted kind ≡ true }
    ensures { IfOk result (λ list. list.items ≡ lost_by_span run.now.scenario.now run.now.tallies.now kind) }
{
    let mut counts = Vec::new(alloc);
    for span in 0..run.spans() {
        counts.push(lost_in(run, kind, span))?;
    }
    Ok(counts)
}

/// How many messages of all kinds were lost in each span, as far as 64 bits hold it.
pub(crate) fn all_lost_by_span(alloc: Global, run: &Run) -> Result<Vec<u64>, Memory>
    requires { IsTold run.now }
    ensures { IfOk result (λ list. list.items ≡ lost_tops run.now.scenario.now run.now.tallies.now) }
{
    let mut tops = flat(alloc, run.spans())?;
    let kinds = kinds(run);
    for kind in kinds {
        let counts = lost_by_span(alloc, run, *kind)?;
        tops = stacked(alloc, tops.as_slice(), counts.as_slice(), u64::MAX)?;
    }
    Ok(tops)
}

/// How many messages of all kinds were sent in each span, as far as 64 bits hold it.
fn all_sent_by_span(alloc: Global, run: &Run) -> Result<Vec<u64>, Memory>
    requires { IsTold run.now }
    ensures { IfOk result (λ list. list.items ≡ sent_tops run.now.scenario.now run.now.tallies.now) }
{
    let mut tops = flat(alloc, run.spans())?;
    let kinds = kinds(run);
    for kind in kinds {
        let counts = sent_by_span(alloc, run, *kind)?;
        tops = stacked(alloc, tops.as_slice(), counts.as_slice(), u64::MAX)?;
    }
    Ok(tops)
}

/// The most messages that were sent in one span.
pub(crate) fn most_in_a_span(alloc: Global, run: &Run) -> Result<u64, Memory>
    requires { IsTold run.now }
    ensures { IfOk result (λ most. most ≡ greatest (sent_tops run.now.scenario.now run.now.tallies.now)) }
{
    let tops = all_sent_by_span(alloc, run)?;
    Ok(greatest(tops.as_slice()))
}

/// Appends an area for each kind, each on top of those before it.
pub(crate) fn push_areas(
    alloc: Global,
    text: &mut String,
    run: &Run,
    most: u64,
) -> Result<(), Memory>
    requires { IsTold run.now }
    ensures { OnOk result (string_bytes text.new ≡ string_bytes text.old ++ sent_areas run.now.scenario.now run.now.tallies.now most) }
{
    let mut bases = flat(alloc, run.spans())?;
    let kinds = kinds(run);
    for kind in kinds {
        let counts = sent_by_span(alloc, run, *kind)?;
        let tops = push_layer(alloc, text, run, class_of(*kind), bases, counts, most)?;
        bases = tops;
    }
    Ok(())
}

/// Appends an area of so many in each span, on these bases; and how high each span reaches then.
pub(crate) fn push_layer(
    alloc: Global,
    text: &mut String,
    run: &Run,
    class: &str,
    bases: Vec<u64>,
    counts: Vec<u64>,
    most: u64,
) -> Result<Vec<u64>, Memory>
    requires { IsTold run.now }
    ensures tops { IfOk result (λ tops. tops.items ≡ stacked bases.items counts.items most) }
    ensures text { IfOk result (λ tops. string_bytes text.new ≡ string_bytes text.old
        ++ area class.now bases.items tops.items (span_width run.now.scenario.now) (moments run.now.scenario.now) most) }
{
    let tops = stacked(alloc, bases.as_slice(), counts.as_slice(), most)?;
    push_time_area(text, run, class, bases.as_slice(), tops.as_slice(), most)?;
    Ok(tops)
}

/// How high each span reaches with so many on top, as far as 64 bits hold it.
pub(crate) fn layer_tops(
    alloc: Global,
    tops: Vec<u64>,
    counts: Vec<u64>,
) -> Result<Vec<u64>, Memory>
    ensures { IfOk result (λ list. list.items ≡ stacked tops.items counts.items (2 ^ 64 - 1)) }
{
    stacked(alloc, tops.as_slice(), counts.as_slice(), u64::MAX)
}

/// Appends an area over the time of the run.
pub(crate) fn push_time_area(
    text: &mut String,
    run: &Run,
    class: &str,
    bases: &[u64],
    tops: &[u64],
    most: u64,
) -> Result<(), AllocError>
    requires { IsTold run.now }
    ensures { OnOk result (string_bytes text.new ≡ string_bytes text.old
        ++ area class.now bases.now tops.now (span_width run.now.scenario.now) (moments run.now.scenario.now) most) }
{
    push_area(text, class, bases, tops, run.width(), run.end() + 1, most)
}

/// Begins a plot over the time of the run.
pub(crate) fn open_time_plot(
    text: &mut String,
    run: &Run,
    most: u64,
    title: &str,
    description: &str,
) -> Result<(), AllocError>
    ensures { OnOk result (string_bytes text.new ≡ string_bytes text.old ++ plot_opening (codes "") (moments run.now.scenario.now) most title.now description.now) }
{
    open_plot(text, "", run.end() + 1, most, title, description)
}
