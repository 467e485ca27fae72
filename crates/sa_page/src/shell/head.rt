// The page's head and body: what stands in it before the script draws.

// All that comes before the style.
pub(crate) const HEAD: &[u8] = br##"<!doctype html>
<html lang="en">
<meta charset="utf-8">
<meta name="viewport" content="width=device-width, initial-scale=1">
<meta name="color-scheme" content="light dark">
<title>A trace, event by event</title>
<style>
"##;

// From the end of the style to the page's data.
pub(crate) const BODY: &[u8] = br##"</style>
<header>
  <h1>A trace, event by event</h1>
  <div id="verdict" role="region" aria-label="Verdict and end"></div>
</header>
<main>
<section aria-labelledby="lanes-title">
  <h2 id="lanes-title" class="unseen">Lanes</h2>
  <div class="bar" role="group" aria-label="Event">
    <button id="first" title="first event (Home, in the lanes)">first</button>
    <button id="back" title="previous event (left arrow)">back</button>
    <label>event <input id="number" inputmode="numeric" autocomplete="off" size="7" aria-describedby="of"></label> <span id="of"></span>
    <button id="next" title="next event (right arrow)">next</button>
    <button id="last" title="last event (End, in the lanes)">last</button>
    <span class="gap"></span>
    <label>find <select id="kind"></select></label>
    <button id="find-back" aria-label="find it before this event">before</button>
    <button id="find-next" aria-label="find it after this event">after</button>
    <span class="gap"></span>
    <button id="zoom-in" title="plus, in the lanes">zoom in</button>
    <button id="zoom-out" title="minus, in the lanes">zoom out</button>
    <button id="zoom-all" title="0, in the lanes">whole trace</button>
    <label class="check"><input type="checkbox" id="with-threads"> lanes of threads</label>
  </div>
  <canvas id="overview" tabindex="0" role="slider" aria-label="Overview of the whole trace: the chosen event" aria-orientation="horizontal"></canvas>
  <div id="scroller"><div id="tall"><canvas id="lanes" tabindex="0" role="slider" aria-label="Lanes: the chosen event" aria-orientation="horizontal" aria-describedby="keys"></canvas></div></div>
  <p id="under"><span id="hint"></span> <span id="keys" class="soft">Left and right step, with shift by ten. In the lanes: up and down choose a lane, Page Up and Page Down go a window, Home and End to the ends; plus, minus and 0 zoom, n and p find; a drag moves, control and the wheel zoom.</span></p>
  <details id="legend"><summary>How to read the lanes</summary><div id="legend-items"></div></details>
</section>
<p id="early-end" class="bad-words" hidden>The page ends with this event: a record of it is no step of the machine, and nothing is read beyond it.</p>
<p id="spoken" class="unseen" role="status" aria-live="polite"></p>
<div id="columns">
  <section id="event" aria-label="The event"></section>
  <section id="programs" aria-label="Programs"></section>
  <section id="state" aria-label="What holds after the event"></section>
</div>
</main>
<noscript><p>The page needs its script, which is in it.</p></noscript>
"##;
