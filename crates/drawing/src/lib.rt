//! Drawing: page heads, escaped texts, numbers, lengths of time, axes and shapes as inline SVG.
//!
//! Shapes are drawn in the units of the data, and stretched over the room that a page gives them; words stand beside them as
//! HTML, so that they stay as large as the reader's text.
#![tactic(auto)]

mod axis;
mod escape;
mod laws;
mod legend;
mod length;
mod number;
mod page;
mod palette;
mod round;
mod shapes;

pub use axis::{push_across, push_time_across, push_time_up, push_up};
pub use escape::{push_escaped, push_markup};
pub use laws::escaped_texts_are_no_markup;
pub use legend::{push_counted, push_entry};
pub use length::{
    push_lasting, push_lasting_between, push_moment_alone, push_time_alone, push_timed,
};
pub use number::{push_grouped, push_place};
pub use page::open_page;
pub use palette::drawing_style;
pub use round::round_step;
pub use shapes::{
    close_figure, close_plot, open_figure, open_plot, push_area, push_band, push_bar, push_dot,
    push_line, push_rule,
};
