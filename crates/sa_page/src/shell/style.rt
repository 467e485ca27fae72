// The page's style.

// Eleven colours, with a second set for a dark screen and a third for print; and where things stand.
pub(crate) const STYLE: &[u8] = br##":root {
  --ink: #15171a; --soft: #55595f; --paper: #ffffff; --pale: #f3f4f6; --rule: #c9ccd1; --edge: #767b82;
  --mark: #fff3c4; --mark-edge: #8a6100; --bad: #a4161a; --bad-pale: #fdecec; --link: #0b5cad;
}
@media (prefers-color-scheme: dark) {
  :root {
    --ink: #e8eaed; --soft: #a9afb7; --paper: #15171b; --pale: #22252b; --rule: #3b4048; --edge: #868d97;
    --mark: #453a10; --mark-edge: #e0b84a; --bad: #ff9a94; --bad-pale: #3a1c1e; --link: #86bdf5;
  }
}
* { box-sizing: border-box; }
body { margin: 0; color: var(--ink); background: var(--paper); font: 15px/1.45 Arial, Helvetica, sans-serif; }
h1 { font-size: 1.05em; margin: 0 0 .3em; }
h2 { font-size: 1em; margin: .9em 0 .3em; padding-bottom: .15em; border-bottom: 2px solid var(--rule); }
h3 { font-size: .95em; margin: .6em 0 .2em; }
summary { cursor: pointer; min-height: 24px; }
:focus-visible { outline: 3px solid var(--link); outline-offset: 2px; }
.soft { color: var(--soft); }
.unseen { position: absolute; width: 1px; height: 1px; overflow: hidden; clip-path: inset(50%); white-space: nowrap; }

/* the verdict and the end */
header { padding: .6em .9em; }
#verdict > div { border-left: 6px solid var(--edge); background: var(--pale); padding: .35em .7em; margin: .3em 0; }
#verdict > .bad { border-left-color: var(--bad); background: var(--bad-pale); }
#verdict p { margin: 0; }
#verdict ul { margin: .2em 0; padding-left: 1.3em; }
#verdict strong { margin-right: .5em; }

/* the buttons */
button, select, input {
  font: inherit; color: var(--ink); background: var(--paper); border: 1px solid var(--edge); border-radius: 4px;
  padding: .15em .6em; min-height: 28px;
}
button { cursor: pointer; }
button:hover { background: var(--pale); }
.bar { display: flex; flex-wrap: wrap; gap: .4em .45em; align-items: center; padding: .4em .9em; border-top: 1px solid var(--rule); }
.gap { width: .8em; }
.check { display: inline-flex; align-items: center; gap: .35em; min-height: 28px; }
.check input { min-height: 0; width: 24px; height: 24px; }

/* the lanes */
canvas { display: block; width: 100%; touch-action: pan-y; }
#overview { cursor: pointer; border-top: 1px solid var(--rule); }
#scroller { overflow-y: auto; overflow-x: hidden; max-height: 46vh; border-top: 1px solid var(--rule); border-bottom: 1px solid var(--rule); }
#tall { position: relative; }
#lanes { position: sticky; top: 0; cursor: pointer; }
#under { margin: .25em .9em; min-height: 1.45em; font-size: .9em; }
#hint:not(:empty) { font-weight: 600; margin-right: .6em; }
#legend { margin: .2em .9em .5em; }
#legend-items { display: flex; flex-wrap: wrap; gap: .3em 1.2em; padding: .3em 0; }
#legend-items canvas { width: 44px; height: 18px; display: inline-block; vertical-align: middle; margin-right: .4em; }

/* the panels */
#columns { display: grid; grid-template-columns: minmax(18em, 1fr) minmax(17em, .9fr) minmax(24em, 1.35fr); gap: 0 1.6em; padding: 0 .9em 1em; align-items: start; }
#columns > section { contain: layout style; min-width: 0; }
#programs { max-height: 90vh; overflow-y: auto; }
#programs > h2 { position: sticky; top: 0; margin-top: 0; padding-top: .9em; background: var(--paper); }
code, ol.lines { font: 13px/1.55 ui-monospace, Menlo, Consolas, monospace; }
code { background: var(--pale); padding: 0 .25em; border-radius: 3px; }
ol.records, ol.lines { list-style: none; padding: 0; margin: 0; }
ol.records li { margin: 0 0 .55em; padding-left: .6em; border-left: 4px solid var(--edge); }
ol.records li.bad { border-left: 8px double var(--bad); background: var(--bad-pale); }
ol.records p { margin: .05em 0; }
.bad-words { color: var(--bad); font-weight: 600; }
.wide { overflow-x: auto; }
table { border-collapse: collapse; width: 100%; margin-bottom: .6em; }
caption { text-align: left; font-weight: 600; padding: .5em 0 .15em; }
th, td { text-align: left; vertical-align: top; padding: .12em .7em .12em .3em; border-bottom: 1px solid var(--rule); }
th { color: var(--soft); font-weight: 600; }
td.changed { background: var(--mark); box-shadow: inset 0 0 0 2px var(--mark-edge); }
.space { display: inline-block; width: .85em; height: .85em; border: 1px solid var(--ink); margin-right: .35em; vertical-align: -.08em; }
ol.lines { margin-bottom: .5em; }
ol.lines li { display: grid; grid-template-columns: 2.6em minmax(8em, auto) 1fr; gap: .3em; padding: 0 .2em; }
ol.lines .place { color: var(--soft); text-align: right; }
ol.lines .threads { font-family: Arial, Helvetica, sans-serif; }
ol.lines li.here { background: var(--pale); }
ol.lines li.ran { background: var(--mark); box-shadow: inset 4px 0 0 var(--mark-edge); }
.tag { border: 1px solid var(--edge); border-radius: 3px; padding: 0 .3em; margin-right: .25em; white-space: nowrap; color: var(--ink); background: var(--paper); }
.tag.waits, .tag.blocked { border-style: dashed; border-color: var(--ink); }
.tag.runs { border-width: 2px; border-color: var(--ink); font-weight: 600; }

/* narrow, few colours, and print */
@media (max-width: 1150px) { #columns { grid-template-columns: 1fr 1fr; } #state { grid-column: 1 / -1; } }
@media (max-width: 700px) { #columns { grid-template-columns: 1fr; } }
@media (forced-colors: active) { td.changed { outline: 2px solid Highlight; } }
@media print {
  :root {
    --ink: #000000; --soft: #444444; --paper: #ffffff; --pale: #f3f4f6; --rule: #bbbbbb; --edge: #666666;
    --mark: #fff3c4; --mark-edge: #000000; --bad: #000000; --bad-pale: #ffffff; --link: #000000;
  }
  button, .bar, #under, #legend { display: none !important; }
  #scroller { max-height: none; overflow: visible; }
  #columns { display: block; }
  #programs { max-height: none; overflow: visible; }
  table, tr, li { break-inside: avoid; }
  h2, h3, caption { break-after: avoid; }
}
"##;
