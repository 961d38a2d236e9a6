//! Pages: their heads, up to the heading.
ghost use Rattle.std.specs.Prelude.{◌≡◌, ◌++◌, OnOk};
ghost use Rattle.std.specs.String.{string_bytes};
ghost use Rattle.drawing.specs.Pages.{head_opening, head_styles, page_opening};

use crate::escape::{push_escaped, push_markup};
use crate::palette::drawing_style;
use std::alloc::AllocError;

/// Begins a page, up to the words of its heading. Its title is the name of a scenario, which is
/// escaped, and then `kind`; its styles are those of drawings and then `style`, in CSS. A browser
/// takes the styles within the page, and loads and runs nothing.
#[tactic(auto, unfolding(crate::specs::Pages::page_opening))]
pub fn open_page(text: &mut String, name: &str, kind: &str, style: &str) -> Result<(), AllocError>
    ensures { OnOk result (string_bytes text.new ≡ string_bytes text.old ++ page_opening name.now kind.now style.now) }
{
    push_head(text)?;
    push_escaped(text, name)?;
    push_markup(text, kind)?;
    push_styles(text, style)?;
    push_markup(text, "</head>\n<body><main><header><h1>")
}

/// Begins the head, up to the words of the title.
#[tactic(auto, unfolding(crate::specs::Pages::head_opening))]
fn push_head(text: &mut String) -> Result<(), AllocError>
    ensures { OnOk result (string_bytes text.new ≡ string_bytes text.old ++ head_opening) }
{
    text.push_str(
        "<!DOCTYPE html>\n<html lang=\"en\"><head><meta charset=\"utf-8\">\
         <meta http-equiv=\"Content-Security-Policy\" content=\"default-src 'none'; style-src 'unsafe-inline'\">\
         <meta name=\"viewport\" content=\"width=device-width,initial-scale=1\"><title>",
    )
}

/// Ends the title, and appends the styles.
#[tactic(auto, unfolding(crate::specs::Pages::head_styles))]
fn push_styles(text: &mut String, style: &str) -> Result<(), AllocError>
    ensures { OnOk result (string_bytes text.new ≡ string_bytes text.old ++ head_styles style.now) }
{
    push_markup(text, "</title><style>")?;
    push_markup(text, drawing_style())?;
    push_markup(text, style)?;
    push_markup(text, "</style>")
}
