//! The page in front of the journal. Made of `page/` by `check/page_texts.py --write`.

/// The beginning, with the style.
pub const FRONT: &str = r#"<!doctype html>
<html lang="en">
<head>
<meta charset="utf-8">
<meta name="viewport" content="width=device-width, initial-scale=1">
<title>am2 report</title>
<style>
:root {
  color-scheme: light dark;
  --back: #fff; --face: #1d2329; --faint: #5d6872; --edge: #cfd6dc; --soft: #f3f5f8; --chosen: #fff0b8; --link: #0058a0;
  --ran: #0067a5; --returned: #c23b00; --unknown: #8e3b96; --unknown-but-ran: #8a6500; --pending: #66717c;
  --head: 56px;
}
@media (prefers-color-scheme: dark) {
  :root {
    --back: #14181c; --face: #e4e8eb; --faint: #9aa6b0; --edge: #39434c; --soft: #1d2329; --chosen: #4a3f10; --link: #7cc0ff;
    --ran: #5eb3ee; --returned: #ff8a55; --unknown: #d690df; --unknown-but-ran: #dcab3c; --pending: #a3adb6;
  }
}
html, body { height: 100%; margin: 0; background: var(--back); color: var(--face); font: 14px/1.4 system-ui, sans-serif; }
body { display: flex; flex-direction: column; }
[hidden] { display: none !important; }
#bar { position: relative; display: flex; flex-wrap: wrap; gap: .3rem 1.2rem; align-items: center; padding: .4rem .8rem; border-bottom: 1px solid var(--edge); }
#bar h1 { font-size: 1rem; margin: 0; }
#bar p { margin: 0; color: var(--faint); }
#filters, #tools { display: flex; flex-wrap: wrap; gap: .3rem .8rem; align-items: center; }
label { display: inline-flex; align-items: center; gap: .3rem; white-space: nowrap; }
input, select, button { font: inherit; color: inherit; background: var(--back); border: 1px solid var(--edge); border-radius: 4px; padding: .1rem .4rem; }
input[type=search] { width: 11rem; }
input[type=range] { width: 6rem; padding: 0; }
button { white-space: nowrap; cursor: pointer; background: var(--soft); }
:focus-visible { outline: 2px solid var(--link); outline-offset: 1px; }
summary { cursor: pointer; }
details > :not(summary) {
  position: absolute; left: .8rem; top: 100%; z-index: 9; margin: .3rem 0 0; padding: .6rem; background: var(--back);
  border: 1px solid var(--edge); border-radius: 6px; max-width: calc(100vw - 4rem); overflow: auto; box-shadow: 0 4px 16px #0004;
}
dl { display: grid; grid-template-columns: auto 1fr; gap: .2rem .8rem; width: 24rem; }
dt, dd { margin: 0; }
kbd { border: 1px solid var(--edge); border-radius: 3px; padding: 0 .3rem; font: 12px monospace; }

main { display: flex; flex: 1; min-height: 0; }
#view { flex: 1; min-width: 0; overflow: auto; position: relative; scroll-padding: var(--head) 0 0 var(--line-width); --line-width: min(6rem + var(--longest) * 7px, 36rem); }
.ready #view { display: grid; grid-template-columns: var(--line-width) minmax(max-content, 1fr); grid-template-rows: var(--head) max-content; }
#corner, #heads { position: sticky; top: 0; z-index: 3; background: var(--back); border-bottom: 1px solid var(--edge); }
#corner { left: 0; z-index: 4; display: flex; align-items: flex-end; padding: 0 0 .1rem .6rem; color: var(--faint); font-size: 12px; }
#heads svg, .ready #picture svg { display: block; }
#lines { position: sticky; left: 0; z-index: 2; background: var(--back); border-right: 1px solid var(--edge); overflow: hidden; outline-offset: -2px; }
#picture { cursor: pointer; }
#picture > svg { max-width: none; }
#lines .line {
  position: absolute; left: 0; right: 0; display: flex; gap: .45rem; align-items: center; overflow: hidden; white-space: nowrap;
  font: 11.5px/1 ui-monospace, monospace; cursor: pointer;
}
#lines .line:hover { background: var(--soft); }
#lines .line[aria-selected=true] { background: var(--chosen); }
#lines .number { flex: 0 0 3.2rem; text-align: right; color: var(--faint); }
#lines .sign { flex: 0 0 12px; }
#lines .dim { opacity: .35; }
#lines .text { text-overflow: ellipsis; overflow: hidden; line-height: 1.2; }
a { color: var(--link); text-decoration: none; }
a:hover { text-decoration: underline; }
#lines a, #side a { color: inherit; text-decoration: underline dotted; }
#marks { flex: 0 0 18px; position: relative; border-left: 1px solid var(--edge); background: var(--soft); }
#marks a { position: absolute; left: 3px; right: 3px; height: 3px; margin-top: -1px; }
#marks .window { position: absolute; left: 0; right: 0; background: #8883; pointer-events: none; min-height: 3px; }
#side { flex: 0 0 21rem; overflow: auto; border-left: 1px solid var(--edge); padding: .6rem .8rem; }
#side h2 { font-size: 1.05rem; margin: 0 0 .3rem; }
#side h3 { font-size: 1rem; margin: .8rem 0 .3rem; }
#side p { margin: .2rem 0; }
#side .changes { margin: .4rem 0; font: 12px/1.45 ui-monospace, monospace; white-space: pre-wrap; overflow-wrap: anywhere; }
#side ol { list-style: none; margin: .4rem 0; padding: 0; font: 12px/1.45 ui-monospace, monospace; overflow-wrap: anywhere; }
#side li { padding: .1rem .3rem; border-left: 3px solid transparent; }
#side li[aria-current] { background: var(--chosen); }
#side li.way { color: var(--faint); padding-left: 1.2rem; }
.of-ran { color: var(--ran); background: none; }
.of-returned { color: var(--returned); }
.of-unknown { color: var(--unknown); }
.of-unknown-but-ran { color: var(--unknown-but-ran); }
.of-pending { color: var(--pending); }
#marks a { background: currentColor; }

.ready #picture .page { color: var(--back); }
.ready #heads .page { color: var(--back); }
svg .dim { fill-opacity: .13; stroke-opacity: .13; marker-end: none; }
.picture .row-hover { color: var(--faint); opacity: .14; stroke: none; pointer-events: none; }
.picture .row-chosen { color: #e8b400; opacity: .3; stroke: none; pointer-events: none; }
.picture .folded { display: none; }
.picture > line:not(.lane), .picture > path { cursor: pointer; }
@media (prefers-color-scheme: dark) {
  .picture text { stroke: var(--back); }
  .area.area { stroke: var(--back); }
  .picture .in-sign { stroke: none; color: var(--back); }
  .picture .band { color: #1d2329; }
  .picture .lane { color: #5d6872; }
  .picture .plain, .picture .in-frame, .picture .head { color: #cdd4da; }
  .picture .ran { color: var(--ran); }
  .picture .returned { color: var(--returned); }
  .picture .unknown { color: var(--unknown); }
  .picture .unknown-but-ran { color: var(--unknown-but-ran); }
  .picture .pending { color: var(--pending); }
  .picture .frame { color: #8c7426; }
  .picture .draining { color: #a86a00; }
  .picture .host, .picture .direct { color: #3a444d; }
  .picture .disk { color: #6d7882; }
  .picture .records { color: #3f6f9c; }
  .picture .received { color: #8f5a7b; }
  .picture .page { color: var(--back); }
}
@media (max-width: 900px) {
  main { flex-direction: row; flex-wrap: wrap; }
  #view { flex: 1 1 calc(100% - 20px); height: 62%; --line-width: min(6rem + var(--longest) * 7px, 15rem); }
  #marks { height: 62%; }
  #side { flex: 1 1 100%; height: 38%; border-left: none; border-top: 1px solid var(--edge); box-sizing: border-box; }
}
@media (max-width: 600px) {
  #view { --line-width: 5.2rem; }
  #lines .text { display: none; }
  #bar { gap: .3rem .6rem; }
  #filters, #tools { flex-wrap: nowrap; overflow-x: auto; scrollbar-width: thin; width: calc(100vw - 1.6rem); padding: 2px; }
  input[type=search] { width: 8rem; }
  #keys { display: none; }
}
@media (prefers-reduced-motion: no-preference) { #view.moving { scroll-behavior: smooth; } }
@media screen { .ready #picture .again { display: none; } }
@media print {
  :root { color-scheme: light; --back: #fff; --face: #000; }
  html, body, main { display: block; height: auto; }
  #bar, #marks, #side, #lines, #corner, #heads { display: none !important; }
  .ready #view { display: block; overflow: visible; }
  .row-hover, .row-chosen { display: none; }
  #picture > svg { max-width: 100%; height: auto; }
}
</style>
<script type="application/x-ndjson" id="journal">
"#;
