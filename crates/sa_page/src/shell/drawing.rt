// The script's third part: the lanes and the overview are drawn.

// Each of the two canvases has a base picture, which is kept as long as nothing of it changes: a step draws the base and the cursor.
pub(crate) const DRAWING: &[u8] = br##"
// ---- What is drawn: the chosen event and row, the rows that are shown, and the window of events.

const LEFT = 104;
const RIGHT = 8;
const TOP = 36;
const BAR = processors > 10 ? 14 : processors > 6 ? 18 : 24;
const PROCESSOR_HIGH = BAR + (processors > 10 ? 12 : 16);
const THREAD_HIGH = 22;
const OVERVIEW_BAR = Math.max(4, Math.min(9, Math.floor(84 / Math.max(1, processors))));
const FONT = '12px Arial, Helvetica, sans-serif';
const SMALL_FONT = '11px Arial, Helvetica, sans-serif';

let chosen = 0;
let chosenRow = null;
let printing = false;
let shownRows = processorRows;
let tops = [];
const view = { from: 0, span: 1 };

const lanesCanvas = byId('lanes');
const overviewCanvas = byId('overview');
const scroller = byId('scroller');
const lanesBase = document.createElement('canvas');
const overviewBase = document.createElement('canvas');
let lanesKey = '';
let overviewKey = '';

const rowHigh = (row) => (isThread(row) ? THREAD_HIGH : PROCESSOR_HIGH);
const layRows = () => {
  shownRows = byId('with-threads').checked ? processorRows.concat(threadRows) : processorRows;
  tops = [TOP];
  for (const row of shownRows) tops.push(tops[tops.length - 1] + rowHigh(row));
  byId('tall').style.height = `${tops[shownRows.length] + 6}px`;
  lanesKey = '';
};
// A page of paper is some 720 pixels wide, whatever the window is.
const laneWidth = () => (printing ? 720 : scroller.clientWidth);
const room = () => Math.max(100, laneWidth() - LEFT - RIGHT);
const unit = () => room() / view.span;
const laneX = (event) => LEFT + (event - view.from) * unit();
const overviewX = (event) => LEFT + (event / (last + 1)) * room();
const eventAtX = (x) => view.from + (x - LEFT) / unit();

const density = () => Math.min(2, window.devicePixelRatio || 1);
const penOf = (canvas, width, height) => {
  const by = density();
  const [w, h] = [Math.round(width * by), Math.round(height * by)];
  if (canvas.width !== w || canvas.height !== h) {
    canvas.width = w;
    canvas.height = h;
  }
  canvas.style.height = `${height}px`;
  const pen = canvas.getContext('2d');
  pen.setTransform(by, 0, 0, by, 0, 0);
  return pen;
};
const fillRect = (pen, colour, x, y, width, height) => {
  pen.fillStyle = colour;
  pen.fillRect(x, y, width, height);
};
const fillText = (pen, colour, text, x, y) => {
  pen.fillStyle = colour;
  pen.fillText(text, x, y);
};
const strokeRect = (pen, colour, thick, x, y, width, height) => {
  pen.strokeStyle = colour;
  pen.lineWidth = thick;
  pen.strokeRect(x, y, width, height);
};
const widths = new Map();
const widthOf = (pen, word) => {
  const key = pen.font + word;
  if (!widths.has(key)) widths.set(key, pen.measureText(word).width);
  return widths.get(key);
};
const textIfRoom = (pen, colour, word, x, y, width) => {
  if (widthOf(pen, word) <= width) fillText(pen, colour, word, x, y);
};

// ---- Many events in a pixel: of each column of pixels, which share threads run, the package works, and nobody gets on.

const columnsOf = (lane, from, span, width) => {
  const runs = new Float32Array(width);
  const works = new Float32Array(width);
  const rests = new Float32Array(width);
  const space = new Int16Array(width).fill(-1);
  const into = (kind) => {
    if (kind === KIND.runs || kind === KIND.copy) return runs;
    return kind === KIND.waits || kind === KIND.blocked || kind === KIND.look ? rests : works;
  };
  const by = width / span;
  for (let k = Math.max(0, placeIn(lane.from, from)); k < lane.from.length && lane.from[k] < from + span; k += 1) {
    if (lane.kind[k] === KIND.nobody || lane.kind[k] === KIND.nothing) continue;
    const share = into(lane.kind[k]);
    let left = Math.max(0, (lane.from[k] - from) * by);
    let right = Math.min(width, (stretchEnd(lane, k) - from) * by);
    if (right - left >= 1.5) [left, right] = [Math.round(left), Math.round(right)];
    for (let x = Math.floor(left); x < right; x += 1) {
      share[x] += Math.min(right, x + 1) - Math.max(left, x);
      space[x] = lane.space[k];
    }
  }
  return { runs, works, rests, space };
};
const drawColumns = (pen, lane, from, span, y, high) => {
  const width = Math.floor(room());
  const { runs, works, rests, space } = columnsOf(lane, from, span, width);
  for (let x = 0; x < width; x += 1) {
    if (space[x] < 0) continue;
    let bottom = y + high;
    for (const [share, strength] of [[runs, 'full'], [works, 'weak'], [rests, 'faint']]) {
      const part = Math.min(1, share[x]) * high;
      bottom -= part;
      if (part > 0) fillRect(pen, colourOf(space[x], strength), LEFT + x, bottom, 1, part);
    }
  }
};

// ---- One stretch: its height and its edge tell its kind without colour.

const drawRuns = (pen, kind, space, x, y, wide, high) => {
  const thick = kind === KIND.copy ? 3 : 0.75;
  fillRect(pen, colourOf(space, 'full'), x, y, wide, high);
  if (wide > 3.5) strokeRect(pen, theme.ink, thick, x + thick / 2, y + thick / 2, wide - thick, high - thick);
  return wordsOn(colourOf(space, 'full'));
};
const drawWeak = (pen, kind, space, x, y, wide, high) => {
  const inset = high * (kind === KIND.ready ? 0.08 : 0.14);
  fillRect(pen, colourOf(space, 'weak'), x, y + inset, wide, high - 2 * inset);
  if (kind === KIND.ready && wide > 3.5) strokeRect(pen, theme.soft, 0.75, x + 0.4, y + inset + 0.4, wide - 0.8, high - 2 * inset - 0.8);
  return wordsOn(colourOf(space, 'weak'));
};
const drawDashed = (pen, kind, x, y, wide, high) => {
  pen.setLineDash(kind === KIND.nothing ? [1, 4] : [3, 2]);
  if (wide > 3.5) strokeRect(pen, theme.soft, 1, x + 0.5, y + high * 0.08, wide - 0.5, high * 0.84);
  else strokeRect(pen, theme.soft, 1, x, y + high * 0.5, wide, 0);
  pen.setLineDash([]);
  return theme.ink;
};
const drawRests = (pen, kind, x, y, wide, high) => {
  fillRect(pen, theme.ink, x, y + high - 5, wide, kind === KIND.waits ? 4 : 1.5);
  if (kind !== KIND.blocked) return;
  for (let tooth = x; tooth < x + wide; tooth += 5) fillRect(pen, theme.ink, tooth, y + high - 6, Math.min(2, x + wide - tooth), 5);
};
const drawStretch = (pen, kind, space, x, y, width, high, word) => {
  const wide = Math.max(width - 0.5, 0.6);
  if (kind === KIND.waits || kind === KIND.blocked) {
    drawRests(pen, kind, x, y, wide, high);
    if (word && width > 30) textIfRoom(pen, theme.ink, word, x + 3, y + high - 8, width - 5);
    return;
  }
  const ink = kind === KIND.runs || kind === KIND.copy ? drawRuns(pen, kind, space, x, y, wide, high)
    : kind === KIND.handler || kind === KIND.ready ? drawWeak(pen, kind, space, x, y, wide, high)
      : drawDashed(pen, kind, x, y, wide, high);
  if (word && width > 14) textIfRoom(pen, ink, word, x + 4, y + high / 2 + 4, width - 6);
};

// ---- The lanes.

const rulerStep = () => {
  const factors = [2, 2.5, 2];
  let step = 1;
  for (let k = 0; step * unit() < 56; k += 1) step *= factors[k % 3];
  return step;
};
const windowEnd = () => Math.min(last + 1, view.from + view.span);
const atRuler = (does) => {
  const step = rulerStep();
  for (let event = Math.ceil(Math.max(0, view.from)); event < windowEnd(); event += 1) {
    if (numbers[event] % step === 0) does(laneX(event), numbers[event]);
  }
};
const drawStretches = (pen, row, lane, y, high, first, final) => {
  for (let k = first; k <= final; k += 1) {
    if (lane.kind[k] === KIND.nobody) continue;
    const left = Math.max(LEFT - 1, laneX(lane.from[k]));
    const wide = Math.min(LEFT + room() + 1, laneX(stretchEnd(lane, k))) - left;
    drawStretch(pen, lane.kind[k], lane.space[k], left, y, wide, high, wide > 14 ? stretchWord(row, lane, k) : '');
  }
};
const drawRow = (pen, row, top, width) => {
  const lane = laneOf(row);
  const y = isThread(row) ? top + 1 : top + PROCESSOR_HIGH - BAR - 2;
  const high = isThread(row) ? THREAD_HIGH - 3 : BAR;
  if (row === chosenRow) fillRect(pen, theme.pale, 0, top, width, rowHigh(row));
  pen.font = row === chosenRow ? `bold ${FONT}` : FONT;
  fillText(pen, theme.ink, row.name, 8, y + high / 2 + 4);
  pen.font = FONT;
  fillRect(pen, theme.rule, LEFT, y + high + 0.5, room(), 0.5);
  pen.save();
  pen.beginPath();
  pen.rect(LEFT, top, room(), rowHigh(row));
  pen.clip();
  const first = Math.max(0, placeIn(lane.from, view.from));
  const final = placeIn(lane.from, windowEnd());
  if (final - first > room() / 3) drawColumns(pen, lane, view.from, view.span, y, high);
  else drawStretches(pen, row, lane, y, high, first, final);
  pen.restore();
};

// The words of an event's records above the lanes of processors, or ticks if there is no room for words.
const RECORD_WORDS = {
  up: 'up', stop: 'stop', block: 'block', unblock: 'ret', cont: 'cont', back: 'back', want: 'want', line: 'line', ready: 'ready',
  take: 'take', free: 'free', spin: 'spin', fetch: 'fetch', fetched: 'page',
};
const recordWords = (event) => {
  const words = new Map();
  for (const record of recordsOf(event)) {
    const kind = kindOf(record);
    const word = RECORD_WORDS[kind];
    const p = kind === 'line' ? +lineOf(record).split(' ')[3] : turns[event];
    if (word && p < processors) words.set(p, [...(words.get(p) ?? []), word]);
  }
  return words;
};
const drawRecordWords = (pen, scrolled) => {
  if (unit() < 3) return;
  pen.font = SMALL_FONT;
  for (let event = Math.max(0, Math.floor(view.from)); event < windowEnd(); event += 1) {
    const [left, right] = [Math.max(LEFT, laneX(event)), Math.min(LEFT + room(), laneX(event + 1))];
    for (const [p, words] of recordWords(event)) {
      const y = tops[p] - scrolled + PROCESSOR_HIGH - BAR - 4;
      const more = words.length > 1 ? `+${words.length - 1}` : '';
      const word = laneX(event) < LEFT ? undefined : [words[0] + more, words[0]].find((one) => widthOf(pen, one) < right - left - 1);
      if (word) fillText(pen, theme.ink, word, left + 1, y);
      else if (right - left > 2) fillRect(pen, theme.ink, (left + right) / 2 - 1, y - 6, 2, 6);
    }
  }
};

// Flags have a row of their own, so nothing is printed over another: where a rule breaks, and how the trace ends.
const END_WORDS = { alldone: 'all done', stuck: 'stuck', budget: 'budget' };
const drawFlags = (pen, xOf, y, right) => {
  const flag = (event, word, colour) => {
    const x = xOf(event);
    if (x < LEFT - 1 || x > right) return;
    pen.font = `bold ${SMALL_FONT}`;
    const wide = widthOf(pen, word) + 8;
    const left = Math.min(x, right - wide);
    fillRect(pen, colour, left, y, wide, 15);
    fillRect(pen, colour, x, y, 1.5, 18);
    fillText(pen, theme.paper, word, left + 4, y + 11.5);
  };
  if (endsEarly) flag(last, 'page ends', theme.bad);
  else flag(last, END_WORDS[firstSaid('end').word[1]], isStuck ? theme.bad : theme.soft);
  if (broken) flag(eventOf(broken.number), `breaks ${broken.rule}`, theme.bad);
};
const drawRuler = (pen, width, scrolled) => {
  fillRect(pen, theme.paper, 0, 0, LEFT, TOP - 1);
  fillRect(pen, theme.paper, 0, 0, width, scrolled > 0 ? TOP - 1 : 13);
  pen.font = FONT;
  atRuler((x, number) => { if (x < width - 44) fillText(pen, theme.soft, number, x + 3, 12); });
  fillText(pen, theme.soft, 'event', 8, 12);
  drawFlags(pen, laneX, 17, width - RIGHT);
};
const drawLanesBase = (width, height, scrolled) => {
  const pen = penOf(lanesBase, width, height);
  fillRect(pen, theme.paper, 0, 0, width, height);
  atRuler((x) => fillRect(pen, theme.rule, x, 14, 1, height));
  const first = Math.max(0, placeIn(tops, scrolled + TOP));
  for (let k = first; k < shownRows.length && tops[k] - scrolled < height; k += 1) drawRow(pen, shownRows[k], tops[k] - scrolled, width);
  drawRecordWords(pen, scrolled);
  drawRuler(pen, width, scrolled);
};

// The chosen event is framed, and an arrow points to the lane of its processor. The frame is weak where it goes over words.
const drawCursor = (pen, width, height, scrolled) => {
  const x = laneX(chosen);
  const wide = Math.max(2, unit());
  if (x <= LEFT - wide || x >= width) return;
  pen.globalAlpha = 0.5;
  strokeRect(pen, theme.ink, 2, Math.max(LEFT, x) - 1, TOP - 2, wide + 1, height);
  pen.globalAlpha = 1;
  fillRect(pen, theme.ink, Math.max(LEFT, x) - 2, TOP - 4, wide + 3, 3);
  if (turns[chosen] >= processors) return;
  const y = tops[turns[chosen]] - scrolled + PROCESSOR_HIGH - BAR / 2 - 2;
  if (y < TOP) return;
  pen.fillStyle = theme.ink;
  pen.beginPath();
  pen.moveTo(LEFT - 9, y - 5);
  pen.lineTo(LEFT - 2, y);
  pen.lineTo(LEFT - 9, y + 5);
  pen.fill();
};
const drawLanes = () => {
  const width = laneWidth();
  const scrolled = printing ? 0 : scroller.scrollTop;
  const all = tops[shownRows.length] + 6;
  const height = printing ? all : Math.min(all, Math.max(140, scroller.clientHeight || 600));
  const key = [width, height, scrolled, view.from, view.span, theme.paper, density(), chosenRow?.name].join(' ');
  if (key !== lanesKey) drawLanesBase(width, height, scrolled);
  lanesKey = key;
  const pen = penOf(lanesCanvas, width, height);
  pen.drawImage(lanesBase, 0, 0, width, height);
  drawCursor(pen, width, height, scrolled);
};

// ---- The overview: the whole trace in columns, with the window that the lanes show.

const drawOverviewBase = (width, height) => {
  const pen = penOf(overviewBase, width, height);
  fillRect(pen, theme.paper, 0, 0, width, height);
  processorRows.forEach((row, p) => drawColumns(pen, laneOf(row), 0, last + 1, 18 + p * (OVERVIEW_BAR + 1), OVERVIEW_BAR));
  pen.font = FONT;
  fillText(pen, theme.soft, 'whole trace', 8, 18 + (height - 20) / 2);
  drawFlags(pen, overviewX, 1, width - RIGHT);
};
const drawOverview = () => {
  const width = laneWidth();
  const height = 25 + processors * (OVERVIEW_BAR + 1);
  const key = [width, height, theme.paper, density()].join(' ');
  if (key !== overviewKey) drawOverviewBase(width, height);
  overviewKey = key;
  const pen = penOf(overviewCanvas, width, height);
  pen.drawImage(overviewBase, 0, 0, width, height);
  const left = overviewX(view.from);
  const right = Math.max(left + 3, overviewX(windowEnd()));
  const veil = theme.paper + '70';
  fillRect(pen, veil, LEFT, 17, left - LEFT, height);
  fillRect(pen, veil, right, 17, LEFT + room() - right, height);
  strokeRect(pen, theme.ink, 2, left, 17, right - left, height - 18);
  for (const x of right - left > 18 ? [left, right] : []) fillRect(pen, theme.ink, x - 3, 17 + (height - 18) / 2 - 9, 6, 18);
  fillRect(pen, theme.ink, overviewX(chosen + 0.5) - 1, 14, 2, height);
};

const draw = () => {
  view.span = Math.max(Math.min(8, last + 1), Math.min(last + 1, view.span));
  view.from = Math.max(0, Math.min(last + 1 - view.span, view.from));
  drawLanes();
  drawOverview();
};
"##;
