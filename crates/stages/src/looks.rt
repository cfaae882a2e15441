//! The fixed texts of a page: what it looks like, in a light and a dark theme and on a narrow screen.

/// The start of the page, before its title.
pub const BEFORE_TITLE: &str = "<!DOCTYPE html>
<html lang=\"en\">
<head>
<meta charset=\"utf-8\">
<meta name=\"viewport\" content=\"width=device-width, initial-scale=1\">
<title>";

/// The look of all pages. On a narrow screen the code is below the source, and each scrolls by itself. On paper each
/// line of the source is above its code, nothing scrolls, all is dark on white, no heading is alone at the foot of a
/// page or above two rows at its foot, no two rows alone are on the next page, no row and no graph is cut in two, and
/// what is left of a row is indented.
pub const LOOK: &str = ": stages of a robot</title>
<style>
:root { color-scheme: light dark; --ground: #ffffff; --ink: #1b1f24; --faint: #59636e; --edge: #d1d9e0; --light: 92%; --strong: 80%; }
@media (prefers-color-scheme: dark) {
  :root { --ground: #14181d; --ink: #e6edf3; --faint: #a5aeb8; --edge: #3d444d; --light: 18%; --strong: 32%; }
}
* { box-sizing: border-box; }
body { margin: 0; padding: 1rem; background: var(--ground); color: var(--ink); font: 1rem/1.4 system-ui, sans-serif; }
h1 { margin: 0 0 .25rem; font-size: 1.25rem; overflow-wrap: anywhere; }
p { margin: 0 0 1rem; color: var(--faint); }
main { display: grid; grid-template-columns: minmax(0, 3fr) minmax(0, 2fr); gap: 1rem; }
section { border: 1px solid var(--edge); border-radius: .4rem; overflow: auto; max-height: calc(100vh - 7rem); }
h2 { position: sticky; top: 0; margin: 0; padding: .3rem .6rem; font-size: .9rem; background: var(--ground); border-bottom: 1px solid var(--edge); }
.rows { width: max-content; min-width: 100%; font: .85rem/1.5 ui-monospace, monospace; tab-size: 8; }
.rows > div { white-space: pre; min-height: 1.5em; scroll-margin-top: 2.2rem; padding-right: .6rem; border-left: .3rem solid transparent; }
.rows > .k { background: hsl(var(--h) 60% var(--light)); border-left-color: hsl(var(--h) 60% 55%); }
.rows > :target { outline: 2px solid var(--ink); outline-offset: -2px; }
.rows > .f { padding: .3rem 0 0 .8rem; font-weight: bold; }
.wide { grid-column: 1 / -1; }
a, i, b { display: inline-block; font-style: normal; font-weight: normal; }
a, .n { min-width: 2.8rem; padding-right: .8rem; text-align: right; text-decoration: none; }
a, i { color: var(--faint); }
a:hover, a:focus { text-decoration: underline; }
b { min-width: 9.5rem; }
@media (max-width: 45rem) {
  body { padding: .5rem; }
  main { grid-template-columns: minmax(0, 1fr); gap: .5rem; }
  section { max-height: 40vh; }
}
.flow { padding: .6rem; }
.flow h3 { margin: 0 0 .4rem; font-size: .9rem; }
svg { display: block; margin-bottom: 1.5rem; font: .8rem ui-monospace, monospace; fill: var(--ink); }
svg rect { fill: hsl(var(--h) 60% var(--light)); stroke: hsl(var(--h) 60% 55%); }
svg .u rect { stroke-dasharray: 4; }
svg path { fill: none; stroke: var(--faint); }
svg .t { fill: var(--faint); }
svg .m { fill: var(--faint); }
.trees { font: 11.5px ui-monospace, monospace; }
.trees text { fill: var(--ink); text-anchor: middle; }
.trees .head { font-weight: bold; text-anchor: start; }
.trees rect { fill: none; stroke: var(--edge); }
.trees .w rect { fill: hsl(210 40% var(--light)); stroke: var(--faint); stroke-width: 2; }
.trees .m rect { stroke: none; }
.trees .m text { font-style: italic; }
.paper { display: none; }
@page { margin: 15mm; }
@page landscape { size: landscape; }
@media print {
  :root { color-scheme: light; --ground: #ffffff; --ink: #000000; --faint: #444444; --edge: #999999; --light: 94%; }
  body { padding: 0; font-size: 10pt; }
  .screen { display: none; }
  .paper { display: block; }
  main { display: block; }
  section { border: 0; max-height: none; overflow: visible; }
  h2, h3, .f { break-after: avoid; break-inside: avoid; }
  h2 { position: static; margin-top: 1rem; padding-left: 0; }
  .rows { width: auto; font-size: 9pt; }
  .rows div { min-height: 0; white-space: pre-wrap; overflow-wrap: anywhere; break-inside: avoid; }
  .rows > div, .b > div { padding-left: 8ch; text-indent: -8ch; border: 0; }
  .rows > .b { padding-left: 0; text-indent: 0; white-space: normal; }
  .rows > .f { padding-left: 8ch; }
  .rows > :nth-child(-n+2), .f + div, .rows > :nth-last-child(2), .rows > :nth-last-child(3) { break-after: avoid; }
  a, i, b { text-indent: 0; }
  .landscape, h1:has(+ main > .landscape:first-child) { page: landscape; }
  .flow { padding: 0; }
  .chart { break-inside: avoid; }
  svg { max-width: 100%; max-height: 24cm; height: auto; }
}
";

/// What is between the look and the name above both sides.
pub const BEFORE_NAME: &str = "</style>
</head>
<body>
<h1>";

/// What is between the name and the first chapter.
pub const BEHIND_NAME: &str = "</h1>
<main>
";

/// What is before the code.
pub const BEFORE_CODE: &str =
    "<p class=\"wide screen\">A line of the source and the instructions that come from it have one colour. The number of a line leads to the other side.</p>
";

/// What is before the lines of the source.
pub const BEFORE_LINES: &str = "<section class=\"screen\" aria-label=\"Source\">
<h2>Source</h2>
<div class=\"rows\">
";

/// What is between both sides.
pub const BEFORE_INSTRUCTIONS: &str = "</div>
</section>
<section class=\"screen\" aria-label=\"Code\">
<h2>Code: line, address, instruction, name</h2>
<div class=\"rows\">
";

/// What is before pictures of trees for which no paper is wide enough.
pub const TOO_WIDE: &str =
    "<p class=\"paper\">No page is wide enough for these trees: print the chapters derivation and tree.</p>
<div class=\"flow screen\">
";

/// The end of a section with its rows.
pub const END_SECTION: &str = "</div>
</section>
";

/// The page's end.
pub const TAIL: &str = "</main>
</body>
</html>
";
