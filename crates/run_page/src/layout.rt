//! How the page is laid out.
ghost use Rattle.std.specs.Prelude.{◌≡◌};
ghost use Rattle.run_page.specs.Styles.{layout_style};

/// The style of the page.
const STYLE: &str = "\
:root{--slow:#a9cdeb;--cut:#cbb5de;--pause:#b4c38a;--eight:#4b2e83;--nine:#2f6b2f;--ten:#a8c686;--eleven:#a0522d;--twelve:#e3b7a0}\
@media(prefers-color-scheme:dark){:root{--slow:#2d5f8a;--cut:#65478a;--pause:#64743b;--eight:#8f74d1;--nine:#5fa85f;--ten:#c3dba7;--eleven:#cf7f55;--twelve:#f0d0bf}}\
.pause{fill:var(--pause)}.eight{fill:var(--eight)}.nine{fill:var(--nine)}.ten{fill:var(--ten)}.eleven{fill:var(--eleven)}.twelve{fill:var(--twelve)}\
.rule.back{stroke-dasharray:1 4}.lane :is(.slow,.pause,.cut){transform:scaleY(1.22);transform-box:fill-box;transform-origin:center}\
*{box-sizing:border-box}body{margin:0;background:var(--page);color:var(--ink);font:16px/1.5 system-ui,sans-serif}\
main{max-width:72rem;margin:0 auto;padding:1rem}h1{font-size:1.5rem;margin:.2em 0;overflow-wrap:anywhere}\
h2{font-size:1.15rem;margin:2em 0 .2em}p{margin:.3em 0;max-width:48rem}.lead{font-size:1.1rem}.unit{max-width:none}.soft{color:var(--soft);font-size:.9rem}\
.told b{color:var(--dead)}.figures{display:flex;flex-wrap:wrap;gap:.6rem;padding:0;margin:1em 0;list-style:none}\
.figures li{background:var(--field);border-radius:.4rem;padding:.4rem .8rem;flex:1 0 7rem}\
.figures b{display:block;font-size:1.35rem;font-weight:600}.figures span{font-size:.85rem;color:var(--soft)}\
.figures .bad b{color:var(--dead)}\
.lane{display:grid;grid-template-columns:8rem 1fr 17rem;gap:0 .8rem;align-items:center;margin:.25rem 0}\
.lane .name{font-weight:600;text-align:right;overflow-wrap:anywhere}.lane .told{font-size:.85rem;line-height:1.25}\
.lane .plot{height:2.2rem}.lane .across{grid-column:2}.lane .unit{grid-column:2}\
.chart{display:grid;grid-template-columns:4.5rem 1fr;align-items:stretch}.chart .plot{height:11rem}\
.chart .across,.chart .unit{grid-column:2}.chart.low .plot{height:5rem}\
.many{display:grid;grid-template-columns:repeat(auto-fill,minmax(min(100%,24rem),1fr));gap:1.2rem 1.5rem}\
.many h3{font-size:1rem;margin:0}.many .plot{height:8rem}\
.cause h3{font-size:1rem;margin:1em 0 0}.cause ul{margin:.2em 0;padding-left:1.2em;font-size:.9rem}\
details{margin:.5em 0}summary{cursor:pointer;color:var(--soft);font-size:.9rem}\
.wide{overflow-x:auto}table{border-collapse:collapse;font-size:.85rem;margin:.4em 0}caption{text-align:left;color:var(--soft)}\
th,td{text-align:right;padding:.15em .7em .15em 0;border-bottom:1px solid var(--line);font-variant-numeric:tabular-nums}td,th[scope=row]{white-space:nowrap}\
th:first-child,td:first-child{text-align:left}.many td,.many th{padding-right:.6em;white-space:normal}th[scope=row]{font-weight:400}th:not([scope=row]){color:var(--soft);font-weight:600;vertical-align:bottom;line-height:1.2}\
table:has(th:nth-child(13)){font-size:.7rem}table:has(th:nth-child(13)) :is(th,td){padding-right:.4em;white-space:normal}\
.keys{display:flex;flex-wrap:wrap;gap:.3rem .5rem;padding:0;margin:.4em 0;list-style:none;font-size:.9rem}\
.keys li{border:1px solid var(--line);border-radius:.3rem;padding:.05rem .5rem}.keys .changed{border-color:var(--ink);font-weight:600}\
@media(max-width:760px){.lane{grid-template-columns:1fr}.lane .name{text-align:left}.lane .across,.lane .unit{grid-column:1}\
.lane{margin:.7rem 0}.chart{grid-template-columns:3.4rem 1fr}.chart .plot{height:8rem}}\
@media print{details{display:none}.lane,.chart,figure{break-inside:avoid}}";

/// The style of the page.
#[tactic(auto, unfolding(crate::specs::Styles::layout_style))]
pub(crate) fn layout_style() -> &'static str
    ensures { result.now ≡ layout_style }
{
    STYLE
}
