// The script's fifth part: going to another event, by buttons, keys and the pointer.

// Single letters and signs are keys only where the lanes have the focus, as WCAG 2.1.4 asks.
pub(crate) const MOVES: &[u8] = br##"
// ---- Going to an event.

const sliders = [lanesCanvas, overviewCanvas];
const speak = (words) => { byId('spoken').textContent = words; };
const speakEvent = () => {
  const said = (record) => wordsOf(record) + (isFailing(chosen, record) && failing.place !== '-' ? ` This breaks rule ${broken.rule}.` : '');
  const words = recordsOf(chosen).map(said).join(' ');
  const rule = breaksAt(chosen) && failing.place === '-' ? ` Rule ${broken.rule} breaks here.` : '';
  speak(`Event ${numbers[chosen]}, processor ${turns[chosen]}. ${words}${rule}${chosen === last ? ' The last event.' : ''}`);
};
const show = () => {
  byId('number').value = numbers[chosen];
  fillEvent();
  fillState();
  fillPrograms();
  draw();
  for (const slider of sliders) {
    slider.setAttribute('aria-valuenow', numbers[chosen]);
    slider.setAttribute('aria-valuetext', `event ${numbers[chosen]}`);
  }
  speakEvent();
};
let noting = 0;
const noteInAddress = () => {
  clearTimeout(noting);
  noting = setTimeout(() => history.replaceState(null, '', `#${numbers[chosen]}`), 150);
};
const go = (event) => {
  chosen = Math.max(0, Math.min(last, event));
  const share = (chosen - view.from) / view.span;
  if (share < 0.02 || share > 0.98 - 1 / view.span) view.from = chosen - view.span / 2;
  show();
  noteInAddress();
};
const goNumber = (number) => go(eventOf(number));
const goBy = (events) => go(chosen + events);

// ---- The next event, or the one before, that has a record of a kind, or at which the chosen lane changes.

const LANE_CHANGES = 'lane';
const KINDS = ['up', 'stop', 'block', 'unblock', 'cont', 'back', 'line', 'want', 'move', 'aim', 'run', 'ready', 'take', 'free', 'spin', 'out', 'fetch', 'fetched', 'giveback'];
const hasKind = (event, kind) => {
  if (kind !== LANE_CHANGES) return recordsOf(event).some((record) => kindOf(record) === kind);
  if (!chosenRow) return false;
  const { from } = laneOf(chosenRow);
  return from[placeIn(from, event)] === event;
};
const find = (step) => {
  const kind = byId('kind').value;
  for (let event = chosen + step; event >= 0 && event <= last; event += step) if (hasKind(event, kind)) return go(event);
  byId('hint').textContent = `no ${kind} ${step > 0 ? 'after' : 'before'} event ${numbers[chosen]}`;
  speak(byId('hint').textContent);
};

// ---- The window, and the chosen lane.

const ZOOM = 1.5;
const zoom = (by, at = chosen + 0.5) => {
  const share = (at - view.from) / view.span;
  view.span = Math.max(Math.min(8, last + 1), Math.min(last + 1, view.span * by));
  view.from = at - share * view.span;
  draw();
};
const zoomAll = () => {
  view.from = 0;
  view.span = last + 1;
  draw();
};
const startView = () => {
  view.span = (last + 1) * 15 < room() ? last + 1 : Math.min(last + 1, Math.max(8, room() / 36));
  view.from = 0;
};
const rowTextAt = (row, event) => {
  const lane = laneOf(row);
  const k = Math.max(0, placeIn(lane.from, event));
  if (lane.kind[k] === KIND.nobody && !isThread(row)) return 'no space owns it';
  return (isThread(row) ? '' : `space ${lane.space[k]}, `) + stretchText(lane, k);
};
const scrollToRow = (at) => {
  if (tops[at] - scroller.scrollTop < TOP) scroller.scrollTop = tops[at] - TOP;
  if (tops[at + 1] - scroller.scrollTop > scroller.clientHeight) scroller.scrollTop = tops[at + 1] - scroller.clientHeight;
};
const chooseRow = (step) => {
  const before = chosenRow ? shownRows.indexOf(chosenRow) : -1;
  const at = Math.max(0, Math.min(shownRows.length - 1, before + step));
  chosenRow = shownRows[at];
  scrollToRow(at);
  fillEvent();
  drawLanes();
  speak(`${chosenRow.name}: ${rowTextAt(chosenRow, chosen)}`);
};

// ---- Keys.

const onKey = (key, inLanes) => {
  if (key.ctrlKey || key.altKey || key.metaKey) return;
  const step = key.shiftKey ? 10 : 1;
  const page = Math.max(1, Math.floor(view.span * 0.8));
  const everywhere = { ArrowLeft: () => goBy(-step), ArrowRight: () => goBy(step) };
  const lanesOnly = {
    ArrowDown: () => chooseRow(1), ArrowUp: () => chooseRow(-1), PageDown: () => goBy(page), PageUp: () => goBy(-page),
    Home: () => go(0), End: () => go(last), '+': () => zoom(1 / ZOOM), '=': () => zoom(1 / ZOOM), '-': () => zoom(ZOOM), 0: zoomAll,
    n: () => find(1), p: () => find(-1),
  };
  const does = everywhere[key.key] ?? (inLanes ? lanesOnly[key.key] : undefined);
  if (!does) return;
  key.preventDefault();
  does();
};
// In the field the arrows go on only if its number is that of the chosen event; else they are the caret's.
const onFieldKey = (key) => {
  const field = byId('number');
  const own = {
    Enter: () => field.onchange(), ArrowUp: () => goBy(1), ArrowDown: () => goBy(-1),
    Escape: () => {
      field.value = numbers[chosen];
      lanesCanvas.focus();
    },
  }[key.key];
  if (own) {
    key.preventDefault();
    own();
  } else if (field.value === String(numbers[chosen])) onKey(key, false);
};
const listenToKeys = () => {
  document.addEventListener('keydown', (key) => {
    if (key.target === byId('number')) onFieldKey(key);
    else if (key.target.tagName !== 'SELECT') onKey(key, sliders.includes(key.target));
  });
};

// ---- Buttons.

const listenToButtons = () => {
  const field = byId('number');
  field.onchange = () => goNumber(+field.value.replace(/\D/g, ''));
  field.onfocus = () => field.select();
  const does = {
    first: () => go(0), back: () => goBy(-1), next: () => goBy(1), last: () => go(last), 'find-back': () => find(-1), 'find-next': () => find(1),
    'zoom-in': () => zoom(1 / ZOOM), 'zoom-out': () => zoom(ZOOM), 'zoom-all': zoomAll,
  };
  for (const id of Object.keys(does)) byId(id).onclick = does[id];
  byId('with-threads').onchange = () => {
    layRows();
    draw();
  };
  for (const kind of KINDS) byId('kind').append(make('option', kind));
  const option = make('option', 'a change in the chosen lane');
  option.value = LANE_CHANGES;
  byId('kind').append(option);
};

// ---- The pointer.

// Follows a drag from where the pointer went down: `moves` is called with how far it has come, `clicks` if it never moved.
const followDrag = (canvas, down, moves, clicks) => {
  const hover = canvas.onpointermove;
  let moved = false;
  canvas.setPointerCapture(down.pointerId);
  canvas.onpointermove = (move) => {
    moved ||= Math.abs(move.offsetX - down.offsetX) > 4;
    if (moved) moves(move.offsetX - down.offsetX);
  };
  canvas.onpointerup = canvas.onpointercancel = (up) => {
    canvas.onpointermove = hover;
    canvas.onpointerup = canvas.onpointercancel = null;
    if (!moved && up.type === 'pointerup') clicks(up);
  };
};
const rowAt = (y) => (y < TOP ? undefined : shownRows[placeIn(tops, y + scroller.scrollTop)]);
const dragLanes = (down) => {
  if (down.button !== 0) return;
  const { from } = view;
  const moves = (by) => {
    view.from = from - by / unit();
    draw();
  };
  followDrag(lanesCanvas, down, moves, (up) => {
    chosenRow = rowAt(up.offsetY) ?? chosenRow;
    go(Math.floor(eventAtX(up.offsetX)));
  });
};
const hoverLanes = (move) => {
  const row = rowAt(move.offsetY);
  const event = Math.floor(eventAtX(move.offsetX));
  if (!row || event < 0 || event > last || move.offsetX < LEFT) return setText(byId('hint'), '');
  const lane = laneOf(row);
  const k = Math.max(0, placeIn(lane.from, event));
  const [from, to] = [lane.from[k], stretchEnd(lane, k) - 1];
  const when = from === to ? `event ${numbers[from]}` : `events ${numbers[from]} to ${numbers[to]}`;
  setText(byId('hint'), `${row.name}, ${when}: ${rowTextAt(row, event)}`);
};
const wheelLanes = (wheel) => {
  if (wheel.ctrlKey) zoom(Math.exp(wheel.deltaY * 0.004), eventAtX(wheel.offsetX));
  else if (wheel.shiftKey || Math.abs(wheel.deltaX) > Math.abs(wheel.deltaY)) {
    view.from += (wheel.deltaX || wheel.deltaY) / unit();
    draw();
  } else return;
  wheel.preventDefault();
};
// In the overview a drag within the window moves it, one of its edge makes it longer or shorter, and one elsewhere spans a new one.
const dragOverview = (down) => {
  if (down.button !== 0) return;
  const eventAt = (x) => ((x - LEFT) / room()) * (last + 1);
  const { from, span } = view;
  const start = eventAt(down.offsetX);
  const [left, right] = [overviewX(from), overviewX(from + span)];
  const near = (x) => Math.abs(down.offsetX - x) < 8;
  const isWithin = down.offsetX > left && down.offsetX < right && span <= last;
  const fixed = near(left) ? from + span : near(right) ? from : start;
  const moves = (by) => {
    const events = (by / room()) * (last + 1);
    if (isWithin && !near(left) && !near(right)) view.from = from + events;
    else {
      view.from = Math.min(fixed, start + events);
      view.span = Math.abs(start + events - fixed);
    }
    draw();
  };
  followDrag(overviewCanvas, down, moves, (up) => {
    view.from = eventAt(up.offsetX) - view.span / 2;
    go(Math.floor(eventAt(up.offsetX)));
  });
};
const listenToPointer = () => {
  lanesCanvas.onpointerdown = dragLanes;
  lanesCanvas.onpointermove = hoverLanes;
  lanesCanvas.onpointerleave = () => setText(byId('hint'), '');
  lanesCanvas.addEventListener('wheel', wheelLanes, { passive: false });
  overviewCanvas.onpointerdown = dragOverview;
  overviewCanvas.ondblclick = zoomAll;
  let waiting = 0;
  scroller.onscroll = () => {
    waiting ||= requestAnimationFrame(() => {
      waiting = 0;
      drawLanes();
    });
  };
};
"##;
