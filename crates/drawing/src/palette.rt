//! The palette. Its colours differ in lightness as well as in hue, so that they can be distinguished by the
//! colour-blind and in print.
ghost use Rattle.std.specs.Prelude.{◌≡◌};
ghost use Rattle.drawing.specs.Styles.{drawing_style};

/// The style of drawings.
const STYLE: &str = "\
:root{color-scheme:light dark;--ink:#1a1d21;--soft:#59616b;--line:#c9ced4;--page:#fff;--field:#f3f5f7;\
--suspect:#f2b632;--dead:#8b1e5c;--mark:#1a1d21;--slow:#cfe3f3;--cut:#e3d7ee;\
--one:#0b5c9c;--two:#6db6e8;--three:#1b8a6b;--four:#e9d24a;--five:#d98a1f;--six:#b58bc4;--seven:#8a8f96;--lost:#c1272d}\
@media(prefers-color-scheme:dark){:root{--ink:#e8eaed;--soft:#a4acb6;--line:#454c55;--page:#15181c;--field:#1f242a;\
--suspect:#e8ad2e;--dead:#e0559c;--mark:#fff;--slow:#1d3a52;--cut:#3d2b52;\
--one:#3c8fd6;--two:#9bd0f5;--three:#39b48f;--four:#f2e06c;--five:#e89c3c;--six:#c9a3d8;--seven:#9aa1aa;--lost:#f0666c}}\
@media print{:root{color-scheme:light}}\
.plot{display:block;width:100%;overflow:visible;background:var(--field)}\
.suspect{fill:var(--suspect)}.dead{fill:var(--dead)}.slow{fill:var(--slow)}.cut{fill:var(--cut)}\
.one{fill:var(--one)}.two{fill:var(--two)}.three{fill:var(--three)}.four{fill:var(--four)}.five{fill:var(--five)}\
.six{fill:var(--six)}.seven{fill:var(--seven)}.lost{fill:var(--lost)}\
.line{fill:none;stroke-width:2.5;vector-effect:non-scaling-stroke;stroke-linejoin:round}\
.line.suspect{stroke:var(--suspect)}.line.dead{stroke:var(--dead)}\
.rule{fill:none;stroke:var(--mark);stroke-width:2;vector-effect:non-scaling-stroke}\
.rule.leave,.rule.start{stroke-dasharray:4 3}\
.rule.grid{stroke:var(--line);stroke-width:1}\
.halo{fill:none;stroke:var(--page);stroke-width:9;stroke-linecap:round;vector-effect:non-scaling-stroke}\
.dot{fill:none;stroke:var(--mark);stroke-width:6;stroke-linecap:round;vector-effect:non-scaling-stroke}\
.swatch .halo{display:none}\
.across{position:relative;height:1.4em;border-top:1px solid var(--line)}\
.across span{position:absolute;transform:translateX(-50%);font-size:.8rem;color:var(--soft);white-space:nowrap}\
.across span:first-child{transform:none}.across .last{transform:translateX(-100%)}\
.up{position:relative}.up span{position:absolute;right:.4em;transform:translateY(50%);font-size:.8rem;color:var(--soft);white-space:nowrap}\
.unit{margin:0;font-size:.8rem;color:var(--soft);text-align:right}\
.legend{list-style:none;display:flex;flex-wrap:wrap;gap:.2em 1.2em;padding:0;margin:.3em 0 .6em;font-size:.85rem}\
.legend li{display:flex;align-items:center;gap:.4em}.swatch{width:.9em;height:.9em;flex:none}\
.swatch .rule,.swatch .dot{vector-effect:none}";

/// The style of drawings: the palette, and rules that all of them share, in CSS.
#[tactic(auto, unfolding(crate::specs::Styles::drawing_style))]
pub fn drawing_style() -> &'static str
    ensures { result.now ≡ drawing_style }
{
    STYLE
}
