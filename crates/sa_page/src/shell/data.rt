// The script's first part: it reads the page's data.

// The trace is one string and an index of its lines; so are the cells. No line is split before it is shown.
pub(crate) const DATA: &[u8] = br##"'use strict';

// The script makes no sentence and knows no rule: it picks lines of the data by their place, and draws.

const byId = (id) => document.getElementById(id);
const make = (tag, text, className) => {
  const made = document.createElement(tag);
  if (text !== undefined) made.textContent = text;
  if (className) made.className = className;
  return made;
};
const each = (count, make) => Array.from({ length: count }, (_, k) => make(k));
const linesOf = (id) => byId(id).textContent.split('\n').filter((line) => line !== '');

const DASH = '-'.charCodeAt(0);
const SPACE = ' '.charCodeAt(0);
const ZERO = '0'.charCodeAt(0);
const numberAt = (text, from) => {
  let number = 0;
  for (let at = from; ; at += 1) {
    const digit = text.charCodeAt(at) - ZERO;
    if (!(digit >= 0 && digit <= 9)) return number;
    number = number * 10 + digit;
  }
};
const lineFrom = (text, from) => text.slice(from, text.indexOf('\n', from));

// The place of the last of these ascending times that is not after `at`; -1 if each is.
const placeIn = (times, at) => {
  let low = 0;
  let high = times.length;
  while (low < high) {
    const middle = (low + high) >> 1;
    if (times[middle] <= at) low = middle + 1;
    else high = middle;
  }
  return low - 1;
};

// ---- The trace: where the line of each record begins; of each event its number, its processor and its first record.
// An event is named by its place in these lists, since numbers may be left out.

const trace = byId('trace').textContent;
const recordStart = [];
const numbers = [];
const turns = [];
const firstRecord = [];
for (let at = trace.indexOf('\n') + 1; at < trace.length; ) {
  const number = numberAt(trace, at);
  if (numbers.length === 0 || numbers[numbers.length - 1] !== number) {
    numbers.push(number);
    turns.push(numberAt(trace, trace.indexOf(' ', at) + 1));
    firstRecord.push(recordStart.length);
  }
  recordStart.push(at);
  at = trace.indexOf('\n', trace.indexOf('\n', at) + 1) + 1;
}
firstRecord.push(recordStart.length);

const recordsOf = (event) => each(firstRecord[event + 1] - firstRecord[event], (k) => firstRecord[event] + k);
const lineOf = (record) => lineFrom(trace, recordStart[record]);
const wordsOf = (record) => lineFrom(trace, trace.indexOf('\n', recordStart[record]) + 1);
const kindOf = (record) => {
  const from = trace.indexOf(' ', trace.indexOf(' ', recordStart[record]) + 1) + 1;
  let to = from;
  while (trace.charCodeAt(to) > SPACE) to += 1;
  return trace.slice(from, to);
};

// ---- The cells: of each name the events from which on it holds another text, and where that text is. Event -1 stands for
// before any event.

const cells = byId('cells').textContent;
const cellOf = new Map();
{
  let event = -1;
  for (let at = cells.indexOf('\n') + 1; at < cells.length; ) {
    const nameStart = cells.indexOf(' ', at) + 1;
    const textStart = cells.indexOf(' ', nameStart) + 1;
    if (cells.charCodeAt(at) !== DASH) {
      const number = numberAt(cells, at);
      event = Math.max(event, 0);
      while (event + 1 < numbers.length && numbers[event] < number) event += 1;
    }
    const name = cells.slice(nameStart, textStart - 1);
    let cell = cellOf.get(name);
    if (cell === undefined) {
      cell = { times: [], texts: [] };
      cellOf.set(name, cell);
    }
    cell.times.push(event);
    cell.texts.push(textStart);
    at = cells.indexOf('\n', textStart) + 1;
  }
}

// What the cell holds after the event; a dash if it has no line yet.
const textOf = (name, event) => {
  const cell = cellOf.get(name);
  const place = cell === undefined ? -1 : placeIn(cell.times, event);
  return place < 0 ? '-' : lineFrom(cells, cell.texts[place]).trim();
};
const changesAt = (name, event) => {
  const cell = cellOf.get(name);
  const place = cell === undefined ? -1 : placeIn(cell.times, event);
  return place >= 0 && event >= 0 && cell.times[place] === event;
};
const countOf = (before, after) => {
  let count = 0;
  while (cellOf.has(before + count + after)) count += 1;
  return count;
};

const processors = countOf('p', '.space');
const spaces = countOf('s', '.demand');
const threads = each(spaces, (s) => countOf(`s${s}.thread`, ''));
const lists = each(spaces, (s) => countOf(`s${s}.lock`, ''));
const threadTotal = threads.reduce((sum, count) => sum + count, 0);
const activations = [...cellOf.keys()]
  .filter((name) => name[0] === 'a' && name.endsWith('.place'))
  .map((name) => ({ number: numberAt(name, 1), cell: cellOf.get(name) }))
  .sort((a, b) => a.number - b.number);
const endsEarly = cellOf.has('page.end');
const last = endsEarly ? cellOf.get('page.end').times[0] : numbers.length - 1;
const eventOf = (number) => Math.max(0, Math.min(last, placeIn(numbers, number)));

// ---- What is said of the whole trace: each line, and its words.

const said = [];
{
  const lines = linesOf('said-lines');
  for (let k = 0; k + 1 < lines.length; k += 2) said.push({ word: lines[k].split(' '), words: lines[k + 1] });
}
const allSaid = (kind) => said.filter((one) => one.word[0] === kind);
const firstSaid = (kind) => allSaid(kind)[0];
const isStuck = firstSaid('end').word[1] === 'stuck';
const broken = allSaid('broken').map(({ word, words }) => ({ number: +word[1], rule: word[2], words }))[0];
const breaksAt = (event) => broken !== undefined && broken.number === numbers[event];

// The record that breaks the rule, by its place among those of its event; if no one record does, all of them count.
const failing = allSaid('record').map(({ word, words }) => ({ place: word[1], words }))[0];
const isFailing = (event, record) => breaksAt(event)
  && (failing.place === '-' || firstRecord[event] + +failing.place === record);

// ---- The programs of each space, and the names of a source, where there is one.

const programs = [];
{
  const lines = linesOf('workload');
  for (let k = 0; k < lines.length; k += 1) {
    const [word, count] = lines[k].split(' ');
    if (word === 'space') programs.push([]);
    if (word === 'program') {
      programs[programs.length - 1].push(lines.slice(k + 1, k + 1 + +count));
      k += +count;
    }
  }
}
const names = new Map(linesOf('names').map((line) => {
  const [kind, s, n, ...name] = line.split(' ');
  return [`${kind} ${s} ${n}`, name.join(' ')];
}));
const nameOf = (kind, s, n) => names.get(`${kind} ${s} ${n}`);
const named = (kind, s, n) => {
  const name = nameOf(kind, s, n);
  return `${kind} ${n}` + (name ? ` (${name})` : '');
};

// The program of each thread: thread 0 of a space runs program 0, and each `fork` makes the next thread, of the program that it names.
const programOf = each(spaces, () => [0]);
const instructionOf = (s, t, place) => programs[s]?.[programOf[s][t]]?.[place];
const ranIn = (record) => {
  const [, , kind, s, t, place] = lineOf(record).split(' ');
  return kind === 'ins' ? { s: +s, t: +t, place: +place } : null;
};
for (let record = 0; record < firstRecord[last + 1]; record += 1) {
  if (kindOf(record) !== 'ins') continue;
  const { s, t, place } = ranIn(record);
  const [operation, , program] = (instructionOf(s, t, place) ?? '').split(' ');
  if (operation === 'fork') programOf[s].push(+program);
}
"##;
