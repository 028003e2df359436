//! The style of a page. It has none of the characters that mean something in a page, so it stands there as it is.

/// Colors, sizes and places, light and dark, on a screen, on a narrow one and on paper.
pub(crate) const STYLE: &str = "\
:root {
  color-scheme: light dark;
  --paper: #ffffff; --sheet: #f6f7f9; --ink: #1b1f24; --faint: #59626e; --line: #d9dde3; --hour: #e9ecf0;
  --late: #b3261e; --late-sheet: #fdeceb; --soon: #7a5200; --today: #1757b8;
  --p0: #1c5fc4; --p1: #14743a; --p2: #8a3fb0; --p3: #0d6f7c; --p4: #8d5410; --p5: #ad2f78;
  --t0: #e8f0fd; --t1: #e4f4ea; --t2: #f5ebfa; --t3: #e2f3f5; --t4: #faf0e2; --t5: #fceaf4;
}
@media (prefers-color-scheme: dark) {
  :root {
    --paper: #14171c; --sheet: #1c2027; --ink: #e6e9ee; --faint: #9fa8b5; --line: #333a45; --hour: #262c35;
    --late: #ff8f86; --late-sheet: #3a1f1e; --soon: #f0c060; --today: #84b4ff;
    --p0: #84b4ff; --p1: #72d391; --p2: #d3a0f2; --p3: #66cbd8; --p4: #e3ae68; --p5: #f396c8;
    --t0: #1b2a44; --t1: #17321f; --t2: #321f3d; --t3: #143034; --t4: #37290f; --t5: #3a1c2d;
  }
}
* { box-sizing: border-box; }
body { margin: 0; background: var(--paper); color: var(--ink); font: 15px/1.45 system-ui, Noto Sans, DejaVu Sans, sans-serif; }
a { color: inherit; text-decoration: none; }
a:hover, a:focus-visible { text-decoration: underline; }
a:focus-visible { outline: 2px solid var(--today); outline-offset: 2px; border-radius: 3px; }
header, main { max-width: 80rem; margin: 0 auto; padding: 0 1.5rem; }
header { padding-top: 1.6rem; display: flex; flex-wrap: wrap; gap: .3rem 2rem; align-items: baseline; justify-content: space-between; }
h1 { font-size: 1.7rem; font-weight: 650; letter-spacing: -.01em; margin: 0; }
h1 small { font-size: 1rem; font-weight: 400; color: var(--faint); margin-left: .3rem; }
h2 { font-size: 1.15rem; font-weight: 650; margin: 2.2rem 0 .7rem; }
h3 { font-size: .95rem; font-weight: 650; margin: 0 0 .35rem; }
nav ul { list-style: none; display: flex; flex-wrap: wrap; gap: 1rem; margin: 0; padding: 0; color: var(--faint); }
.skip { position: absolute; left: -99rem; }
.skip:focus { left: 1rem; top: .5rem; background: var(--paper); padding: .3rem .6rem; z-index: 9; }
.counts { display: flex; flex-wrap: wrap; gap: .7rem; margin: 1.1rem 0 0; padding: 0; list-style: none; }
.counts li { background: var(--sheet); border: 1px solid var(--line); border-radius: .6rem; padding: .5rem .9rem; min-width: 8rem; color: var(--faint); }
.counts b { display: block; font-size: 1.5rem; line-height: 1.2; color: var(--ink); font-variant-numeric: tabular-nums; }
.counts .late b { color: var(--late); }
.counts .soon b { color: var(--soon); }
.columns { display: grid; grid-template-columns: minmax(20rem, 2fr) 3fr; gap: 0 2.5rem; }
@media (max-width: 56rem) { .columns { grid-template-columns: 1fr; } }
.hidden { position: absolute; width: 1px; height: 1px; overflow: hidden; clip-path: inset(50%); white-space: nowrap; }
.where, .tags { color: var(--faint); font-size: .85em; }
.where { white-space: nowrap; }
.word { font-size: .72em; font-weight: 650; letter-spacing: .03em; border: 1px solid currentColor; border-radius: .25rem; padding: 0 .28em; }
.cookie { font-weight: 650; color: var(--late); }
.c0 { --own: var(--p0); --tint: var(--t0); } .c1 { --own: var(--p1); --tint: var(--t1); } .c2 { --own: var(--p2); --tint: var(--t2); }
.c3 { --own: var(--p3); --tint: var(--t3); } .c4 { --own: var(--p4); --tint: var(--t4); } .c5 { --own: var(--p5); --tint: var(--t5); }
/* A day by its hours. */
.whole { list-style: none; margin: 0 0 .5rem 3.4rem; padding: 0; }
.whole li, .hours li.entry { background: var(--tint); border-left: 3px solid var(--own); border-radius: .3rem; padding: .12rem .5rem; overflow: hidden; }
.whole li { margin-bottom: .25rem; }
.hours { --minute: .05rem; list-style: none; position: relative; margin: .8rem 0 .8rem 3.4rem; min-width: calc((var(--most) - 1) * 7rem); padding: 0;
  height: calc((var(--last) - var(--first)) * var(--minute));
  background: repeating-linear-gradient(var(--hour) 0 1px, transparent 1px calc(60 * var(--minute))); }
.hours li { position: absolute; top: calc((var(--from) - var(--first)) * var(--minute)); }
.hours li.entry { height: calc((var(--to) - var(--from)) * var(--minute) - 2px); padding-block: 0; line-height: 1.35rem; white-space: nowrap; text-overflow: ellipsis;
  left: calc(100% * var(--lane) / var(--lanes)); width: calc(100% / var(--lanes) - 4px); }
.hours li.entry time { font-variant-numeric: tabular-nums; color: var(--own); font-weight: 600; }
.hours li.hour { left: -3.4rem; width: 3rem; text-align: right; color: var(--faint); font-size: .8rem; transform: translateY(-.6rem); }
.hours li.now { left: -3.4rem; right: 0; border-top: 2px solid var(--late); z-index: 2; }
.hours li.now span { position: absolute; left: 0; top: -.75rem; background: var(--late); color: var(--paper); font-size: .72rem; font-weight: 650; border-radius: .25rem; padding: 0 .3rem; }
/* Tables. */
table { border-collapse: collapse; width: 100%; }
caption { text-align: left; color: var(--faint); font-size: .85rem; padding-bottom: .3rem; }
th { text-align: left; font-weight: 600; color: var(--faint); font-size: .8rem; }
.list td, .list th { padding: .28rem .7rem .28rem 0; border-bottom: 1px solid var(--hour); vertical-align: baseline; }
.list td:last-child, .list th:last-child { padding-right: 0; text-align: right; }
table.list { margin-bottom: 1.4rem; }
.list .number { text-align: right; font-variant-numeric: tabular-nums; white-space: nowrap; width: 1%; }
.list thead .number { text-align: right; }
.late .number { color: var(--late); font-weight: 600; }
.soon .number { color: var(--soon); font-weight: 600; }
.list td.late { color: var(--late); font-weight: 600; }
.days { display: grid; grid-template-columns: repeat(auto-fill, minmax(17rem, 1fr)); gap: .8rem; }
.days section { border: 1px solid var(--line); border-radius: .6rem; padding: .6rem .8rem; }
.days ul { list-style: none; margin: 0; padding: 0; }
.days li { display: grid; grid-template-columns: 3.2rem 1fr; gap: .4rem; padding: .1rem 0; }
.days li time, .days li .sign { color: var(--own); font-variant-numeric: tabular-nums; font-weight: 600; }
.days p { margin: 0; color: var(--faint); }
/* The month. A narrow screen scrolls it sideways. */
.scroll { overflow-x: auto; }
.scroll .month { min-width: 46rem; }
.month { table-layout: fixed; border: 1px solid var(--line); }
.month th[scope=col] { padding: .3rem .4rem; }
.month th[scope=row] { width: 2.3rem; text-align: center; vertical-align: top; padding-top: .35rem; background: var(--sheet); border: 1px solid var(--line); font-weight: 400; }
.month col.week { width: 2.3rem; }
.month td { border: 1px solid var(--line); vertical-align: top; padding: .2rem 0 .35rem; height: 6.2rem; font-size: .8rem; line-height: 1.35; }
.month td time { display: block; text-align: right; padding: 0 .4rem; color: var(--faint); font-variant-numeric: tabular-nums; }
.month td.weekend { background: var(--sheet); }
.month td.other { opacity: 1; background: repeating-linear-gradient(135deg, var(--sheet) 0 4px, var(--paper) 4px 8px); }
.month td.today { box-shadow: inset 0 0 0 2px var(--today); }
.month td.today time { color: var(--today); font-weight: 700; }
.month ul { list-style: none; margin: 0; padding: 0; }
.month li { padding: 0 .4rem; white-space: nowrap; overflow: hidden; text-overflow: ellipsis; }
.month td li time { display: inline; padding: 0; }
.month td li time, .month td.today li time, .month li .sign { color: var(--own); font-weight: 600; }
.month ul.bars { display: grid; grid-template-columns: minmax(0, 1fr); grid-auto-rows: 1.3rem; }
.month li.bar { grid-row: var(--row); grid-column: 1; background: var(--own); color: var(--paper); margin: 1px -1px 0 0; height: 1.2rem; padding: 0 .45rem; position: relative; z-index: 1; }
.month li.named a { display: block; max-width: calc(var(--days) * (100% + .9rem) - .9rem); width: max-content; overflow: hidden; text-overflow: ellipsis; }
.month li.bar.named { overflow: visible; z-index: 2; }
.bar .hidden:focus-within { position: static; width: auto; height: auto; clip-path: none; }
.month li.bar.first { border-radius: .5rem 0 0 .5rem; margin-left: .25rem; }
.month li.bar.last { border-radius: 0 .5rem .5rem 0; margin-right: .25rem; }
.month li.bar.first.last { border-radius: .5rem; }
s { color: var(--faint); text-decoration: line-through; }
/* Charts. */
figure { margin: 0; }
svg { display: block; width: 100%; height: auto; }
svg text { font: 11px system-ui, Noto Sans, DejaVu Sans, sans-serif; fill: var(--faint); }
svg .axis { stroke: var(--hour); }
svg .week { stroke: var(--line); }
svg rect { stroke: var(--paper); stroke-width: .6; vector-effect: non-scaling-stroke; }
.f0 { fill: var(--p0); } .f1 { fill: var(--p1); } .f2 { fill: var(--p2); } .f3 { fill: var(--p3); } .f4 { fill: var(--p4); } .f5 { fill: var(--p5); }
.legend { list-style: none; display: flex; flex-wrap: wrap; gap: .3rem 1.4rem; margin: .4rem 0 0; padding: 0; }
.legend li { border-left: .8em solid var(--own); padding-left: .45em; line-height: 1; }
.sums td.name { white-space: nowrap; overflow: hidden; text-overflow: ellipsis; max-width: 22rem; }
.sums td.bar { width: 45%; padding-right: 0; }
.sums td.bar span { display: block; height: .75rem; border-radius: 0 .25rem .25rem 0; background: var(--own, var(--faint)); width: calc(var(--part) * 1%); }
.sums td.bar span.some { min-width: 2px; }
h3.sums { margin-top: 1.6rem; }
.sums tr.file td, .sums tr.total td { font-weight: 650; }
@media (max-width: 40rem) { figure { overflow-x: auto; } svg { min-width: 44rem; } .sums td.name, .where { white-space: normal; overflow-wrap: anywhere; } .sums td.bar { width: 25%; } }
details { margin-top: .6rem; }
summary { cursor: pointer; color: var(--faint); }
footer { max-width: 80rem; margin: 2.5rem auto 2rem; padding: 0 1.5rem; color: var(--faint); font-size: .85rem; }
@media print {
  @page { margin: 12mm; }
  body { font-size: 9.5pt; }
  nav, .skip, summary { display: none; }
  h2 { break-after: avoid; }
  .days section, tr, figure { break-inside: avoid; }
  .month td { height: 20mm; }
  .month li, .month li.named a, .sums td.name, .hours li.entry { white-space: normal; overflow-wrap: anywhere; }
  .month ul.bars { grid-auto-rows: minmax(1.3rem, auto); }
  .month li.bar { height: auto; min-height: 1.2rem; }
  .hours { --minute: .04rem; break-inside: avoid; }
  .hours li.entry { height: auto; min-height: calc((var(--to) - var(--from)) * var(--minute) - 2px); line-height: 1.1rem; }
  .scroll .month { min-width: 0; }
  .scroll { overflow: visible; }
  .hours, .whole li, .hours li.entry, .month li.bar, .legend li, .sums td.bar span, svg rect { print-color-adjust: exact; -webkit-print-color-adjust: exact; }
}
";
