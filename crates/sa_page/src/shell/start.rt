// The script's last part: the verdict at the head, the legend, and the start.

// The page opens at the event that its address names; or else where a rule breaks, at the end of a stuck run, or at the first event.
pub(crate) const START: &[u8] = br##"
// ---- The verdict and the end.

const link = (text, does) => {
  const button = make('button', text);
  button.onclick = does;
  return button;
};
const paragraph = (...parts) => {
  const made = make('p');
  made.append(...parts);
  return made;
};
const makeRules = () => {
  const box = make('div', undefined, broken ? 'bad' : '');
  if (broken) box.append(paragraph(make('strong', 'Broken.'), broken.words, ' ', failing.words, ' ', link(`show event ${broken.number}`, () => goNumber(broken.number))));
  else box.append(paragraph(make('strong', 'Legal.'), firstSaid('legal').words));
  return box;
};
const showSinceWhen = (row) => {
  const { from } = laneOf(row);
  chosenRow = row;
  byId('with-threads').checked = true;
  layRows();
  go(from[from.length - 1]);
};
const makeWait = ({ word, words }) => {
  const item = make('li', `${words} `);
  const row = threadRows.find(({ s, t }) => s === +word[1] && t === +word[2]);
  if (row) item.append(link('since when', () => showSinceWhen(row)));
  return item;
};
const makeWaits = () => {
  const waits = allSaid('waits');
  if (waits.length === 0) return [];
  const list = make('ul');
  list.append(...waits.map(makeWait));
  if (waits.length <= 8) return [list];
  const part = make('details');
  part.append(make('summary', `${waits.length} waiting threads`), list);
  return [part];
};
const END_TITLES = { alldone: 'All done.', stuck: 'Stuck.', budget: 'Cut off.' };
const makeEnd = () => {
  const box = make('div', undefined, isStuck || endsEarly ? 'bad' : '');
  const end = firstSaid('end');
  if (endsEarly) box.append(paragraph(make('strong', 'Not read to its end.'), byId('early-end').textContent, ' ', link('show it', () => go(last))));
  else box.append(paragraph(make('strong', END_TITLES[end.word[1]]), end.words, ' ', link('show the end', () => go(last))));
  box.append(...allSaid('cycle').map(({ words }) => paragraph(make('strong', words))), ...makeWaits());
  return box;
};
const makeVerdict = () => {
  const parts = [makeRules(), makeEnd()];
  byId('verdict').append(...(isStuck && !broken ? parts.reverse() : parts));
};

// ---- The legend.

const LEGEND = [
  [KIND.runs, 'a thread runs'], [KIND.copy, 'a stopped section runs on in its copy'], [KIND.handler, 'the package is at work'],
  [KIND.look, 'it looks in vain; or a thread is in hand, to be made ready'], [KIND.ready, 'a thread is ready'],
  [KIND.waits, 'it waits for another'], [KIND.blocked, 'it is blocked in the kernel'],
];
const makeLegend = () => {
  const box = byId('legend-items');
  box.replaceChildren();
  for (const [kind, words] of LEGEND) {
    const item = make('span');
    const canvas = make('canvas');
    drawStretch(penOf(canvas, 44, 18), kind, 0, 1, 1, 42, 16, '');
    item.append(canvas, words);
    box.append(item);
  }
  for (let s = 0; spaces > 1 && s < spaces; s += 1) {
    const item = make('span');
    item.append(swatch(s), `space ${s}`);
    box.append(item);
  }
  box.append(make('span', 'Where many events share a pixel, the height is the share of time that threads run (strong), the package works (weak), and nobody gets on (faint). A column has the colour of the space that comes last in it.'));
};

// ---- The start. The colours are read again when the screen turns dark or light, and for print.

const freshen = () => {
  readTheme();
  lanesKey = overviewKey = '';
  makeLegend();
};
const redraw = () => {
  freshen();
  draw();
};
const PRINT_COLOURS = { ink: '#000000', soft: '#444444', paper: '#ffffff', pale: '#f3f4f6', rule: '#bbbbbb', bad: '#000000' };
const listenToScreen = () => {
  window.onresize = draw;
  matchMedia('(prefers-color-scheme: dark)').addEventListener('change', redraw);
  window.onbeforeprint = () => {
    printing = true;
    for (const name of Object.keys(PRINT_COLOURS)) document.documentElement.style.setProperty(`--${name}`, PRINT_COLOURS[name]);
    redraw();
  };
  window.onafterprint = () => {
    printing = false;
    document.documentElement.removeAttribute('style');
    redraw();
  };
  window.onhashchange = () => {
    if (+location.hash.slice(1) !== numbers[chosen]) goNumber(+location.hash.slice(1));
  };
};
const start = () => {
  for (const slider of sliders) {
    slider.setAttribute('aria-valuemin', numbers[0]);
    slider.setAttribute('aria-valuemax', numbers[last]);
  }
  byId('of').textContent = `of ${numbers[last]}`;
  byId('with-threads').checked = threadTotal > 0 && threadTotal <= 12;
  freshen();
  makeState();
  makePrograms();
  layRows();
  startView();
  listenToKeys();
  listenToButtons();
  listenToPointer();
  listenToScreen();
  if (location.hash) goNumber(+location.hash.slice(1));
  else if (broken) goNumber(broken.number);
  else go(isStuck ? last : 0);
};

makeVerdict();
if (numbers.length > 0) start();
"##;
