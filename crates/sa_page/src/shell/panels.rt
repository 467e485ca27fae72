// The script's fourth part: the panels below the lanes.

// What stands there stays: a step changes a text only where it is another one.
pub(crate) const PANELS: &[u8] = br##"
// ---- Tables of cells.

const MOST_ROWS = 60;
const MOST_LINES = 400;

const swatch = (space) => {
  const box = make('span', '', 'space');
  box.style.background = SPACE_COLOURS[space % SPACE_COLOURS.length];
  return box;
};
const table = (caption, heads) => {
  const made = make('table');
  made.append(make('caption', caption));
  const top = made.createTHead().insertRow();
  for (const word of heads) {
    const head = make('th', word);
    head.scope = 'col';
    top.append(head);
  }
  made.append(make('tbody'));
  return made;
};
// A row with its header, and a cell of the table for each named cell of the data; `how` may say how its text is shown.
const addRow = (made, header, shown) => {
  const row = made.tBodies[0].insertRow();
  const head = make('th', header);
  head.scope = 'row';
  row.append(head);
  for (const { name, how } of shown) {
    const cell = row.insertCell();
    cell.dataset.cell = name;
    cell.how = how;
  }
  return row;
};
const showText = (cell, text) => { cell.textContent = text === '' || text === '-' ? 'none' : text; };
const showSpace = (cell, text) => {
  if (text === '-') cell.textContent = 'none';
  else cell.replaceChildren(swatch(+text), text);
};
const fill = (cell) => {
  const name = cell.dataset.cell;
  const text = textOf(name, chosen);
  if (cell.dataset.text !== text) {
    cell.dataset.text = text;
    (cell.how ?? showText)(cell, text);
  }
  const mark = changesAt(name, chosen) ? 'changed' : '';
  if (cell.className !== mark) cell.className = mark;
};
const hide = (row, hidden) => { if (row.hidden !== hidden) row.hidden = hidden; };
const setText = (element, text) => { if (element.textContent !== text) element.textContent = text; };

// ---- What holds after the event.

let stateCells = [];
let listTables = [];
let activationTable = null;
let activationNote = null;

const makeProcessors = () => {
  const made = table('Processors', ['no.', 'space', 'aim', 'interrupt line', 'activation', 'runs']);
  for (let p = 0; p < processors; p += 1) {
    addRow(made, p, [
      { name: `p${p}.space`, how: showSpace }, { name: `p${p}.aim`, how: showSpace },
      { name: `p${p}.line` }, { name: `p${p}.activation` }, { name: `p${p}.runs` },
    ]);
  }
  return made;
};
const SYNC_TITLES = { mutex: 'Mutexes', semaphore: 'Semaphores', cell: 'Cells' };
const SYNC_HEADS = { mutex: 'holder, queue', semaphore: 'count, queue', cell: 'value' };
const makeSync = (s) => {
  const kinds = Object.keys(SYNC_TITLES).filter((kind) => cellOf.has(`s${s}.${kind}0`));
  if (kinds.length === 0) return [];
  const made = table(kinds.map((kind) => SYNC_TITLES[kind]).join(', '), ['which', kinds.map((kind) => SYNC_HEADS[kind]).join('; or ')]);
  for (const kind of kinds) {
    for (let n = 0; n < countOf(`s${s}.${kind}`, ''); n += 1) addRow(made, named(kind, s, n), [{ name: `s${s}.${kind}${n}` }]);
  }
  return [made];
};
const makeLists = (s) => {
  const made = table('Ready lists', ['list', 'lock', 'threads, the oldest first']);
  const rows = each(lists[s], (l) => addRow(made, l, [{ name: `s${s}.lock${l}` }, { name: `s${s}.list${l}` }]));
  const note = make('p', '', 'soft');
  listTables.push({ s, made, rows, note });
  return [made, note];
};
const makeSpace = (s) => {
  const head = make('h3');
  head.append(swatch(s), `Space ${s}`);
  const own = table('Demand and notices', ['space', 'processors that it can use', 'not yet told']);
  addRow(own, s, [{ name: `s${s}.demand` }, { name: `s${s}.untold` }]);
  return [head, own, ...makeSync(s), ...makeLists(s)];
};
const wide = (...parts) => {
  const made = make('div', undefined, 'wide');
  made.append(...parts);
  return made;
};
const makeState = () => {
  const box = byId('state');
  activationTable = table('Activations', ['no.', 'where it is', 'locks', 'threads to be made ready']);
  activationNote = make('p', '', 'soft');
  box.append(make('h2', 'What holds after the event'), wide(makeProcessors()), ...each(spaces, makeSpace).flat());
  stateCells = [...box.querySelectorAll('[data-cell]')];
  box.append(wide(activationTable, activationNote));
};

// A list that is free and empty, and was so before the event, is left out.
const isQuiet = (s, l) => textOf(`s${s}.lock${l}`, chosen) === 'free' && textOf(`s${s}.list${l}`, chosen) === ''
  && !changesAt(`s${s}.lock${l}`, chosen) && !changesAt(`s${s}.list${l}`, chosen);
const fillLists = ({ s, made, rows, note }) => {
  const quiet = rows.map((_, l) => isQuiet(s, l));
  rows.forEach((row, l) => hide(row, quiet[l]));
  hide(made, quiet.every(Boolean));
  setText(note, quiet.some(Boolean) ? 'Lists that are empty and not locked are left out.' : '');
};
const isShownActivation = ({ cell }) => {
  const place = placeIn(cell.times, chosen);
  return place >= 0 && (cells.charCodeAt(cell.texts[place]) !== DASH || cell.times[place] === chosen);
};
const fillActivation = (row, number) => {
  if (row.dataset.number !== String(number)) {
    row.dataset.number = number;
    row.cells[0].textContent = number;
    ['place', 'locks', 'hand'].forEach((word, k) => { row.cells[k + 1].dataset.cell = `a${number}.${word}`; });
  }
  for (const cell of [...row.cells].slice(1)) fill(cell);
};
const fillActivations = () => {
  const shown = activations.filter(isShownActivation);
  const count = Math.min(MOST_ROWS, shown.length);
  hide(activationTable, count === 0);
  const rows = activationTable.tBodies[0].rows;
  while (rows.length < count) addRow(activationTable, '', each(3, () => ({ name: '' })));
  for (let k = 0; k < rows.length; k += 1) {
    hide(rows[k], k >= count);
    if (k < count) fillActivation(rows[k], shown[k].number);
  }
  setText(activationNote, shown.length > count ? `And ${shown.length - count} more.` : '');
};
const fillState = () => {
  listTables.forEach(fillLists);
  for (const cell of stateCells) if (!cell.parentNode.hidden) fill(cell);
  fillActivations();
};

// ---- The programs, and at each line the threads that are there.

const STATES = [
  { kind: KIND.runs, word: 'runs', look: 'runs' }, { kind: KIND.ready, word: 'ready', look: '' }, { kind: KIND.hand, word: 'in hand', look: '' },
  { kind: KIND.waits, word: 'waits', look: 'waits' }, { kind: KIND.blocked, word: 'blocked', look: 'blocked' },
];
const lineItems = new Map();
let markedLines = new Set();
const lineKey = (s, program, place) => `${s} ${program} ${place}`;

const OPERANDS = {
  lock: ['mutex', 1], unlock: ['mutex', 1], wait: ['semaphore', 1], signal: ['semaphore', 1], load: ['cell', 2], store: ['cell', 1], fork: ['program', 2],
};
const nameWithin = (s, text) => {
  const words = text.split(' ');
  const [kind, at] = OPERANDS[words[0]] ?? [];
  return kind && nameOf(kind, s, words[at]);
};
const makeLine = (s, program, text, place) => {
  const item = make('li');
  const name = nameWithin(s, text);
  item.append(make('span', place, 'place'), make('span', text + (name ? `  ; ${name}` : '')), make('span', '', 'threads'));
  lineItems.set(lineKey(s, program, place), item);
  return item;
};
const makeProgram = (s, program, lines) => {
  const part = make('details');
  const head = make('summary');
  const list = make('ol', undefined, 'lines');
  head.append(swatch(s), (spaces > 1 ? `space ${s}, ` : '') + named('program', s, program));
  list.setAttribute('aria-label', `${named('program', s, program)} of space ${s}`);
  list.append(...lines.slice(0, MOST_LINES).map((text, place) => makeLine(s, program, text, place)));
  if (lines.length > MOST_LINES) list.append(make('li', `and ${lines.length - MOST_LINES} more`));
  part.open = program < 2 || spaces * programs[s].length <= 6;
  part.append(head, list);
  return part;
};
const makePrograms = () => {
  byId('programs').append(make('h2', 'Programs'), ...programs.flatMap((some, s) => some.map((lines, program) => makeProgram(s, program, lines))));
};

// The place at which a thread is, or of the instruction in which it waits: that is where it was when it began to wait.
const placeOf = (cell, k) => {
  for (let at = k; at >= 0; at -= 1) {
    const place = / (?:at|in) (\d+): /.exec(lineFrom(cells, cell.texts[at]));
    if (place) return +place[1];
  }
  return -1;
};
// Where each thread is. It is read again only if its cell has another line.
const standings = threads.flatMap((count, s) => each(count, (t) => ({ s, t, cell: cellOf.get(`s${s}.thread${t}`), line: -1, kind: KIND.nobody, key: '' })));
const readStanding = (one, line) => {
  one.line = line;
  one.kind = line < 0 ? KIND.nobody : threadKind(lineFrom(cells, one.cell.texts[line]));
  if (one.kind !== KIND.nobody) one.key = lineKey(one.s, programOf[one.s][one.t], placeOf(one.cell, line));
};
const threadsAtLines = () => {
  const at = new Map();
  for (const one of standings) {
    const line = placeIn(one.cell.times, chosen);
    if (line !== one.line) readStanding(one, line);
    if (one.kind === KIND.nobody) continue;
    if (!at.has(one.key)) at.set(one.key, []);
    at.get(one.key).push(one);
  }
  return at;
};
const tagsOf = (here) => STATES.flatMap(({ kind, word, look }) => {
  const some = here.filter((one) => one.kind === kind).map(({ t }) => `t${t}`);
  if (some.length === 0) return [];
  const more = some.length > 4 ? ` +${some.length - 4}` : '';
  return [{ text: `${some.slice(0, 4).join(' ')}${more} ${word}`, look }];
});
const markLine = (item, here, ran) => {
  const tags = tagsOf(here);
  const shown = JSON.stringify([tags, ran]);
  if (item.dataset.shown === shown) return;
  item.dataset.shown = shown;
  item.className = ran ? 'ran' : here.length > 0 ? 'here' : '';
  if (ran) item.setAttribute('aria-current', 'step');
  else item.removeAttribute('aria-current');
  item.lastChild.replaceChildren(...tags.map(({ text, look }) => make('span', text, `tag ${look}`)), ran ? ' just ran' : '');
};
// Where the programs have more lines than their panel has room for, it is scrolled to the one that just ran.
const showLine = (item) => {
  const box = byId('programs');
  if (!item || box.scrollHeight <= box.clientHeight) return;
  const [line, around] = [item.getBoundingClientRect(), box.getBoundingClientRect()];
  if (line.height > 0 && (line.top < around.top || line.bottom > around.bottom)) box.scrollTop += line.top - around.top - box.clientHeight / 4;
};
const fillPrograms = () => {
  const at = threadsAtLines();
  const ran = new Set(recordsOf(chosen).map(ranIn).filter(Boolean).map(({ s, t, place }) => lineKey(s, programOf[s]?.[t], place)));
  const marked = new Set([...at.keys(), ...ran]);
  for (const key of new Set([...markedLines, ...marked])) {
    const item = lineItems.get(key);
    if (item) markLine(item, at.get(key) ?? [], ran.has(key));
  }
  markedLines = marked;
  showLine(lineItems.get([...ran][0]));
};

// ---- The event: its records in words, and the threads.

const makeRecord = (record) => {
  const item = make('li');
  const line = make('p');
  line.append(make('code', lineOf(record), 'line'));
  if (isFailing(chosen, record)) {
    item.className = 'bad';
    if (failing.place !== '-') line.append(' ', make('span', `breaks ${broken.rule}`, 'bad-words'));
  }
  item.append(line, make('p', wordsOf(record)));
  return item;
};
const endParts = () => {
  if (chosen !== last) return [];
  if (endsEarly) return [make('p', byId('early-end').textContent, 'bad-words')];
  return [make('h3', 'The end'), ...said.filter(({ word }) => word[0] === 'end' || word[0] === 'cycle').map(({ words }) => make('p', words))];
};

// With few threads all that are not done; else those that the event changed, and the chosen one.
const FEW_THREADS = 40;
const isFew = threadTotal <= FEW_THREADS;
const isShownThread = ({ s, t }) => {
  const cell = cellOf.get(`s${s}.thread${t}`);
  const k = placeIn(cell.times, chosen);
  if (k < 0) return false;
  if (cell.times[k] === chosen || (chosenRow?.s === s && chosenRow?.t === t)) return true;
  return isFew && threadKind(lineFrom(cells, cell.texts[k])) !== KIND.nobody;
};
const threadParts = () => {
  const shown = threadRows.filter(isShownThread).slice(0, MOST_ROWS);
  if (shown.length === 0) return [];
  const made = table(isFew ? 'Threads that are not done' : 'Threads that this event changed, and the chosen one', ['thread', 'is']);
  for (const { s, t } of shown) {
    const row = addRow(made, (spaces > 1 ? `${s}: ` : '') + t, [{ name: `s${s}.thread${t}` }]);
    fill(row.cells[1]);
  }
  return [made];
};
const fillEvent = () => {
  const list = make('ol', undefined, 'records');
  list.append(...recordsOf(chosen).map(makeRecord));
  const rule = breaksAt(chosen) ? [make('p', `${broken.words} ${failing.words}`, 'bad-words')] : [];
  byId('event').replaceChildren(make('h2', `Event ${numbers[chosen]}, at processor ${turns[chosen]}`), ...rule, list, ...endParts(), ...threadParts());
};
"##;
