// The script's second part: colours, and the lanes.

// A lane is the stretches in which a processor or a thread shows the same.
pub(crate) const LANES: &[u8] = br##"
// ---- Colours: eight for spaces, each also weak and faint, and of words on them black or white, whichever has more contrast.

const SPACE_COLOURS = ['#56b4e9', '#d55e00', '#009e73', '#f0e442', '#cc79a7', '#e69f00', '#0072b2', '#5b5b5b'];
const partsOf = (colour) => [1, 3, 5].map((at) => parseInt(colour.slice(at, at + 2), 16));
const mixed = (a, b, share) => '#' + partsOf(a)
  .map((part, k) => Math.round(part * share + partsOf(b)[k] * (1 - share)).toString(16).padStart(2, '0')).join('');
// the relative luminance of WCAG 2
const lightOf = (colour) => {
  const [red, green, blue] = partsOf(colour)
    .map((part) => part / 255)
    .map((part) => (part <= 0.04045 ? part / 12.92 : ((part + 0.055) / 1.055) ** 2.4));
  return 0.2126 * red + 0.7152 * green + 0.0722 * blue;
};
const contrast = (a, b) => {
  const [low, high] = [lightOf(a), lightOf(b)].sort((x, y) => x - y);
  return (high + 0.05) / (low + 0.05);
};
const wordsOn = (colour) => (contrast(colour, '#000000') >= contrast(colour, '#ffffff') ? '#000000' : '#ffffff');

let theme = {};
const readTheme = () => {
  const style = getComputedStyle(document.documentElement);
  theme = {};
  for (const name of ['ink', 'soft', 'paper', 'pale', 'rule', 'bad']) theme[name] = style.getPropertyValue('--' + name).trim();
  theme.full = SPACE_COLOURS;
  theme.weak = SPACE_COLOURS.map((colour) => mixed(colour, theme.paper, 0.42));
  theme.faint = SPACE_COLOURS.map((colour) => mixed(colour, theme.paper, 0.14));
};
const colourOf = (space, strength) => theme[strength][space % SPACE_COLOURS.length];

// ---- Lanes. A stretch has its first event, its kind, its space, and where its text is in the cells.

const KIND = { nobody: 0, nothing: 1, look: 2, handler: 3, runs: 4, copy: 5, ready: 6, hand: 7, waits: 8, blocked: 9 };

const runsKind = (text) => {
  if (text.startsWith('nothing')) return KIND.nothing;
  if (text.startsWith('a look')) return KIND.look;
  if (text.endsWith('section')) return KIND.copy;
  return text.startsWith('thread') ? KIND.runs : KIND.handler;
};
const threadKind = (text) => {
  if (text.startsWith('runs')) return KIND.runs;
  if (text.startsWith('ready')) return KIND.ready;
  if (text.startsWith('waits')) return KIND.waits;
  if (text.startsWith('blocked')) return KIND.blocked;
  return text.includes('to be made ready') ? KIND.hand : KIND.nobody;
};
const processorOf = (text) => numberAt(text, 'runs on processor '.length);
const awaitedOf = (text) => /for (mutex|semaphore) (\d+)/.exec(text);

const newLane = () => ({ from: [], kind: [], space: [], text: [] });
const addStretch = (lane, from, kind, space, text) => {
  lane.from.push(Math.max(0, from));
  lane.kind.push(kind);
  lane.space.push(space);
  lane.text.push(text);
};

// The stretches of a processor: from each event on at which its space or what runs there changes.
const processorLane = (p) => {
  const lane = newLane();
  const owner = cellOf.get(`p${p}.space`);
  const runs = cellOf.get(`p${p}.runs`);
  for (let i = 0, k = 0; i < owner.times.length || k < runs.times.length; ) {
    const at = Math.min(owner.times[i] ?? Infinity, runs.times[k] ?? Infinity);
    if (owner.times[i] === at) i += 1;
    if (runs.times[k] === at) k += 1;
    const text = runs.texts[k - 1];
    if (cells.charCodeAt(owner.texts[i - 1]) === DASH) addStretch(lane, at, KIND.nobody, -1, text);
    else addStretch(lane, at, runsKind(lineFrom(cells, text)), numberAt(cells, owner.texts[i - 1]), text);
  }
  return lane;
};

// The stretches of a thread: its steps within one stretch make no new one.
const threadLane = (s, t) => {
  const lane = newLane();
  let before = '';
  const cell = cellOf.get(`s${s}.thread${t}`);
  cell.times.forEach((at, k) => {
    const text = lineFrom(cells, cell.texts[k]);
    const kind = threadKind(text);
    const end = lane.kind.length - 1;
    const goesOn = end >= 0 && lane.kind[end] === kind
      && (kind !== KIND.runs || processorOf(text) === processorOf(before))
      && (kind !== KIND.waits || String(awaitedOf(text)) === String(awaitedOf(before)));
    before = text;
    if (!goesOn) addStretch(lane, at, kind, s, cell.texts[k]);
  });
  return lane;
};

// A row has a lane, which is made when it is first drawn.
const processorRows = each(processors, (p) => ({ name: `processor ${p}`, p, makeLane: () => processorLane(p) }));
const threadRows = threads.flatMap((count, s) => each(count, (t) => (
  { name: (spaces > 1 ? `${s}: ` : '') + `thread ${t}`, s, t, makeLane: () => threadLane(s, t) }
)));
const isThread = (row) => row.t !== undefined;
const laneOf = (row) => (row.lane ??= row.makeLane());
const stretchEnd = (lane, k) => (k + 1 < lane.from.length ? lane.from[k + 1] : last + 1);
const stretchText = (lane, k) => lineFrom(cells, lane.text[k]);

// The word within a stretch.
const threadWord = (kind, text) => {
  switch (kind) {
    case KIND.runs: return `P${processorOf(text)}`;
    case KIND.ready: return 'ready';
    case KIND.hand: return 'in hand';
    case KIND.blocked: return 'blocked';
    case KIND.waits: return awaitedOf(text)?.slice(1).join(' ') ?? 'waits';
    default: return '';
  }
};
const processorWord = (kind, text) => {
  switch (kind) {
    case KIND.runs: return text.replace('thread ', 't');
    case KIND.copy: return text.replace('thread ', 't').replace('the ', '').replace(/,.*/, ' copy');
    case KIND.handler: return 'handler';
    case KIND.look: return 'look';
    default: return '';
  }
};
const stretchWord = (row, lane, k) => {
  const text = stretchText(lane, k);
  if (isThread(row)) return threadWord(lane.kind[k], text);
  const word = processorWord(lane.kind[k], text);
  return word && spaces > 1 ? `${lane.space[k]}: ${word}` : word;
};
"##;
