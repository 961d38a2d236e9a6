//! How the page is laid out.
ghost use Rattle.std.specs.Prelude.{◌≡◌};
ghost use Rattle.sweep_page.specs.Style.{page_style};

/// The style of the page.
const STYLE: &str = "\
*{box-sizing:border-box}body{margin:0;background:var(--page);color:var(--ink);font:16px/1.5 system-ui,sans-serif}\
main{max-width:72rem;margin:0 auto;padding:1rem}h1{font-size:1.5rem;margin:.2em 0;overflow-wrap:anywhere}\
h2{font-size:1.15rem;margin:2em 0 .2em;overflow-wrap:anywhere}h3{font-size:1rem;margin:1em 0 .2em;overflow-wrap:anywhere}p{margin:.3em 0;max-width:48rem}\
.lead{font-size:1.1rem}.unit{max-width:none}.soft{color:var(--soft);font-size:.9rem}footer{margin:2em 0 1em}\
.answers{list-style:none;padding:0;margin:.8em 0}\
.answers li{display:flex;flex-wrap:wrap;align-items:center;gap:.1rem 1.2rem;background:var(--field);border-left:5px solid var(--one);padding:.35rem .8rem;margin:.3rem 0}\
.answers code{font-size:1.05rem;font-weight:600;flex:1 1 18rem;overflow-wrap:anywhere}.answers b{font-size:1.05rem}\
.answers .unknown{border-color:var(--five)}.answers .unsafe{border-color:var(--lost)}.goals{margin:.3em 0 .8em;padding-left:1.4em}.ties{overflow-wrap:anywhere}\
.number{min-width:1.7em;height:1.7em;padding:0 .35em;border-radius:1em;background:var(--one);color:#fff;font-size:.85rem;font-weight:600;display:inline-flex;align-items:center;justify-content:center}\
.chart{display:grid;grid-template-columns:4.5rem 1fr;align-items:stretch;margin-top:3.1rem}.chart .plot{height:20rem}.plane{position:relative}\
.chart .across,.chart .unit{grid-column:2}.plane .number{position:absolute;transform:translate(-50%,-60%);font-size:.72rem;pointer-events:none}\
.plane .number:nth-of-type(even){transform:translate(-50%,-165%)}\
.plane .plot{position:absolute;inset:0;height:100%}.plane{height:20rem}\
.point{fill:none;stroke-linecap:round;vector-effect:non-scaling-stroke;stroke:var(--seven)}\
.r1{stroke-width:6}.r2{stroke-width:9}.r3{stroke-width:12}.r4{stroke-width:15}.r5{stroke-width:18}\
.span{fill:none;stroke:var(--seven);stroke-width:1.5;opacity:.55;vector-effect:non-scaling-stroke}\
.span.best{stroke:var(--one);stroke-width:2.5;opacity:1}.point.best{stroke:var(--one)}\
.joined{fill:none;stroke:var(--one);stroke-width:2.5;stroke-dasharray:7 5;vector-effect:non-scaling-stroke}\
.many{display:grid;grid-template-columns:repeat(auto-fill,minmax(min(100%,20rem),1fr));gap:1rem 1.5rem}\
.many .plane{height:11rem}.many .chart{grid-template-columns:4.2rem 1fr;margin-top:.9rem}.many .across span:nth-child(even){display:none}\
.values{position:relative;height:1.4em;border-top:1px solid var(--line);grid-column:2}\
.values span{position:absolute;transform:translateX(-50%);font-size:.8rem;color:var(--soft);white-space:nowrap}\
.path{fill:none;stroke-width:2.5;vector-effect:non-scaling-stroke;stroke-linejoin:round}\
.mark{fill:none;stroke-width:7;stroke-linecap:round;vector-effect:non-scaling-stroke}\
.reach{fill:none;stroke-width:1.5;opacity:.6;vector-effect:non-scaling-stroke}\
.s0{stroke:var(--one)}.s1{stroke:var(--five)}.s2{stroke:var(--three)}.s3{stroke:var(--dead)}\
.s4{stroke:var(--two)}.s5{stroke:var(--seven)}.s6{stroke:var(--six)}.s7{stroke:var(--four)}\
.path.s1,.path.s3,.path.s5,.path.s7{stroke-dasharray:6 4}\
.sample{width:1.8em;height:.9em;flex:none}.legend code{font-size:.85rem}\
details{margin:.5em 0}summary{cursor:pointer;color:var(--soft);font-size:.9rem}\
.wide{overflow-x:auto}table{border-collapse:collapse;font-size:.82rem;margin:.4em 0}caption{text-align:left;color:var(--soft)}\
th,td{text-align:right;padding:.2em .5em .2em 0;border-bottom:1px solid var(--line);font-variant-numeric:tabular-nums}\
thead th{color:var(--soft);font-weight:600;font-size:.7rem;vertical-align:bottom;line-height:1.2}th{font-weight:400}\
table:has(th:nth-child(17)){font-size:.72rem}table:has(th:nth-child(17)) thead th{font-size:.65rem}table:has(th:nth-child(17)) :is(th,td){padding-right:.3em}\
.best td,.best th{font-weight:600}tr.best{background:var(--field)}\
@media(max-width:760px){.chart{grid-template-columns:3.4rem 1fr}.plane{height:14rem}}\
@media print{details{display:none}.answers li,.chart{break-inside:avoid}.number{print-color-adjust:exact}}";

/// The style of the page.
#[tactic(auto, unfolding(crate::specs::Style::page_style))]
pub(crate) fn page_style() -> &'static str
    ensures { result.now ≡ page_style }
{
    STYLE
}
