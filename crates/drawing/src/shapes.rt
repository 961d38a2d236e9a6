//! Shapes, in the units of the data. Up is more.
ghost use Rattle.std.specs.Prelude.{◌≡◌, ◌++◌, OnOk, codes};
ghost use Rattle.std.specs.String.{string_bytes};
ghost use Rattle.drawing.specs.Shapes.{area, area_step, area_steps, band, bar, corner, corners, dot, figure_end, figure_opening, line, line_end, line_opening, mark, path_opening, plot_end, plot_opening, rectangle, rule, section_opening, svg_opening, turn, turns};

use crate::escape::push_escaped;
use std::alloc::AllocError;

/// Begins a figure with a heading.
#[tactic(auto, unfolding(crate::specs::Shapes::figure_opening))]
pub fn open_figure(text: &mut String, id: &str, heading: &str) -> Result<(), AllocError>
    ensures { OnOk result (string_bytes text.new ≡ string_bytes text.old ++ figure_opening id.now heading.now) }
{
    open_section(text, id)?;
    push_escaped(text, heading)?;
    text.push_str("</h2>\n")
}

/// Begins a section with a name, and its heading.
#[tactic(auto, unfolding(crate::specs::Shapes::section_opening))]
fn open_section(text: &mut String, id: &str) -> Result<(), AllocError>
    ensures { OnOk result (string_bytes text.new ≡ string_bytes text.old ++ section_opening id.now) }
{
    write!(text, "<section id=\"{id}\"><h2>")
}

/// Ends a figure.
#[tactic(auto, unfolding(crate::specs::Shapes::figure_end))]
pub fn close_figure(text: &mut String) -> Result<(), AllocError>
    ensures { OnOk result (string_bytes text.new ≡ string_bytes text.old ++ figure_end) }
{
    text.push_str("</section>\n")
}

/// Begins a plot that is so wide and so high, in the units of the data, and says for screen readers what
/// it shows.
#[tactic(auto, unfolding(crate::specs::Shapes::plot_opening))]
pub fn open_plot(
    text: &mut String,
    class: &str,
    width: u64,
    height: u64,
    title: &str,
    description: &str,
) -> Result<(), AllocError>
    ensures { OnOk result (string_bytes text.new ≡ string_bytes text.old ++ plot_opening class.now width height title.now description.now) }
{
    open_svg(text, class, width, height)?;
    text.push_str("<title>")?;
    push_escaped(text, title)?;
    text.push_str("</title><desc>")?;
    push_escaped(text, description)?;
    text.push_str("</desc>")
}

/// Begins the shapes of a plot.
#[tactic(auto, unfolding(crate::specs::Shapes::svg_opening))]
fn open_svg(text: &mut String, class: &str, width: u64, height: u64) -> Result<(), AllocError>
    ensures { OnOk result (string_bytes text.new ≡ string_bytes text.old ++ svg_opening class.now width height) }
{
    write!(
        text,
        "<svg class=\"plot {class}\" viewBox=\"0 0 {width} {height}\" \
         preserveAspectRatio=\"none\" role=\"img\">"
    )
}

/// Ends a plot.
#[tactic(auto, unfolding(crate::specs::Shapes::plot_end))]
pub fn close_plot(text: &mut String) -> Result<(), AllocError>
    ensures { OnOk result (string_bytes text.new ≡ string_bytes text.old ++ plot_end) }
{
    text.push_str("</svg>")
}

/// Appends the area under steps, each so wide, that stand on others: step i goes from `bases[i]` to
/// `tops[i]`, of at most `most`, and the last one ends where the plot does.
#[tactic(auto, unfolding(crate::specs::Shapes::area))]
pub fn push_area(
    text: &mut String,
    class: &str,
    bases: &[u64],
    tops: &[u64],
    step: u64,
    width: u64,
    most: u64,
) -> Result<(), AllocError>
    ensures { OnOk result (string_bytes text.new ≡ string_bytes text.old ++ area class.now bases.now tops.now step width most) }
{
    open_path(text, class)?;
    push_area_steps(text, bases, tops, step, width, most)?;
    text.push_str("\"/>")
}

/// Appends the parts of an area over its steps.
fn push_area_steps(
    text: &mut String,
    bases: &[u64],
    tops: &[u64],
    step: u64,
    width: u64,
    most: u64,
) -> Result<(), AllocError>
    ensures { OnOk result (string_bytes text.new ≡ string_bytes text.old ++ area_steps bases.now tops.now step width most) }
{
    for place in 0..bases.len().min(tops.len()) {
        push_area_step(text, place, bases[place], tops[place], step, width, most)?;
    }
    Ok(())
}

/// Begins a path.
fn open_path(text: &mut String, class: &str) -> Result<(), AllocError>
    ensures { OnOk result (string_bytes text.new ≡ string_bytes text.old ++ path_opening class.now) }
{
    write!(text, "<path class=\"{class}\" d=\"")
}

/// Appends the part of an area over the step at a place.
#[tactic(auto, unfolding(crate::specs::Shapes::area_step))]
fn push_area_step(
    text: &mut String,
    place: usize,
    base: u64,
    top: u64,
    step: u64,
    width: u64,
    most: u64,
) -> Result<(), AllocError>
    ensures { OnOk result (string_bytes text.new ≡ string_bytes text.old ++ area_step step width most place base top) }
{
    if top <= base {
        return Ok(());
    }
    let from = (place as u64).saturating_mul(step).min(width);
    let to = from.saturating_add(step).min(width);
    push_box(
        text,
        from,
        to,
        most.saturating_sub(base),
        most.saturating_sub(top),
    )
}

/// Appends a box of a path.
fn push_box(text: &mut String, from: u64, to: u64, lower: u64, upper: u64) -> Result<(), AllocError>
    ensures { OnOk result (string_bytes text.new ≡ string_bytes text.old ++ corners from to lower upper) }
{
    write!(text, "M{from} {lower}V{upper}H{to}V{lower}")
}

/// Appends a line of steps: its height is `heights[i]` from i steps on.
#[tactic(auto, unfolding(crate::specs::Shapes::line))]
pub fn push_line(
    text: &mut String,
    class: &str,
    heights: &[u64],
    step: u64,
    most: u64,
) -> Result<(), AllocError>
    ensures { OnOk result (string_bytes text.new ≡ string_bytes text.old ++ line class.now heights.now step most) }
{
    open_line(text, class, most)?;
    push_turns(text, heights, step, most)?;
    let end = (heights.len() as u64).saturating_mul(step);
    close_line(text, end)
}

/// Appends the turns of a line.
fn push_turns(text: &mut String, heights: &[u64], step: u64, most: u64) -> Result<(), AllocError>
    ensures { OnOk result (string_bytes text.new ≡ string_bytes text.old ++ turns heights.now step most) }
{
    let mut last = 0;
    for (place, height) in heights.iter().enumerate() {
        push_turn(text, place, last, *height, step, most)?;
        last = *height;
    }
    Ok(())
}

/// Begins a line at the height 0.
fn open_line(text: &mut String, class: &str, most: u64) -> Result<(), AllocError>
    ensures { OnOk result (string_bytes text.new ≡ string_bytes text.old ++ line_opening class.now most) }
{
    write!(text, "<path class=\"line {class}\" d=\"M0 {most}")
}

/// Ends a line at a place.
fn close_line(text: &mut String, end: u64) -> Result<(), AllocError>
    ensures { OnOk result (string_bytes text.new ≡ string_bytes text.old ++ line_end end) }
{
    write!(text, "H{end}\"/>")
}

/// Appends the turn of a line from its last height to the next, where they differ.
#[tactic(auto, unfolding(crate::specs::Shapes::turn))]
fn push_turn(
    text: &mut String,
    place: usize,
    last: u64,
    height: u64,
    step: u64,
    most: u64,
) -> Result<(), AllocError>
    ensures { OnOk result (string_bytes text.new ≡ string_bytes text.old ++ turn step most place last height) }
{
    if height == last {
        return Ok(());
    }
    let at = (place as u64).saturating_mul(step);
    push_corner(text, at, most.saturating_sub(height))
}

/// Appends a corner of a line: across to a place, and up or down to a height.
fn push_corner(text: &mut String, at: u64, upper: u64) -> Result<(), AllocError>
    ensures { OnOk result (string_bytes text.new ≡ string_bytes text.old ++ corner at upper) }
{
    write!(text, "H{at}V{upper}")
}

/// Appends a bar from one height to another.
#[tactic(auto, unfolding(crate::specs::Shapes::bar))]
pub fn push_bar(
    text: &mut String,
    class: &str,
    from: u64,
    to: u64,
    lower: u64,
    upper: u64,
    most: u64,
) -> Result<(), AllocError>
    ensures { OnOk result (string_bytes text.new ≡ string_bytes text.old ++ bar class.now from to lower upper most) }
{
    let width = to.saturating_sub(from);
    let height = upper.saturating_sub(lower);
    let top = most.saturating_sub(upper);
    push_rectangle(text, class, from, top, width, height)
}

/// Appends a rectangle.
fn push_rectangle(
    text: &mut String,
    class: &str,
    from: u64,
    top: u64,
    width: u64,
    height: u64,
) -> Result<(), AllocError>
    ensures { OnOk result (string_bytes text.new ≡ string_bytes text.old ++ rectangle class.now from top width height) }
{
    write!(
        text,
        "<rect class=\"{class}\" x=\"{from}\" y=\"{top}\" width=\"{width}\" height=\"{height}\"/>"
    )
}

/// Appends a band over the whole height.
pub fn push_band(
    text: &mut String,
    class: &str,
    from: u64,
    to: u64,
    most: u64,
) -> Result<(), AllocError>
    ensures { OnOk result (string_bytes text.new ≡ string_bytes text.old ++ band class.now from to most) }
{
    push_bar(text, class, from, to, 0, most, most)
}

/// Appends an upright rule over the whole height.
#[tactic(auto, unfolding(crate::specs::Shapes::rule))]
pub fn push_rule(text: &mut String, class: &str, at: u64, most: u64) -> Result<(), AllocError>
    ensures { OnOk result (string_bytes text.new ≡ string_bytes text.old ++ rule class.now at most) }
{
    write!(text, "<path class=\"rule {class}\" d=\"M{at} 0V{most}\"/>")
}

/// Appends a dot in the middle of the height.
#[tactic(auto, unfolding(crate::specs::Shapes::dot))]
pub fn push_dot(text: &mut String, class: &str, at: u64, most: u64) -> Result<(), AllocError>
    ensures { OnOk result (string_bytes text.new ≡ string_bytes text.old ++ dot class.now at most) }
{
    let middle = most / 2;
    push_mark(text, "halo", at, middle)?;
    push_mark_of(text, class, at, middle)
}

/// Appends a round mark of a class alone.
fn push_mark(text: &mut String, class: &str, at: u64, upper: u64) -> Result<(), AllocError>
    ensures { OnOk result (string_bytes text.new ≡ string_bytes text.old ++ mark class.now at upper) }
{
    write!(text, "<path class=\"{class}\" d=\"M{at} {upper}h0\"/>")
}

/// Appends a round mark of a class of dots.
fn push_mark_of(text: &mut String, class: &str, at: u64, upper: u64) -> Result<(), AllocError>
    ensures { OnOk result (string_bytes text.new ≡ string_bytes text.old ++ mark (codes "dot " ++ class.now) at upper) }
{
    write!(text, "<path class=\"dot {class}\" d=\"M{at} {upper}h0\"/>")
}
