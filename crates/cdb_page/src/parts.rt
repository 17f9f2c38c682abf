//! The fixed parts of a page: how it looks, what stands below the picture, and its script. Nothing in it is loaded from
//! elsewhere, and nothing rests on colours.

ghost use Rattle.std.specs.Prelude.{◌≡◌};
ghost use Rattle.cdb_page.specs.Pages.{refresh_text};

/// Whether a browser loads a page again by itself.
#[derive(Clone, Copy)]
pub enum Refresh {
    Never,
    EachTwoSeconds,
}

/// What comes first.
pub const HEAD: &str = "\
<!DOCTYPE html>
<html lang='en'>
<head>
<meta charset='utf-8'>
<meta name='viewport' content='width=device-width'>
<title>A run of revdbg</title>
";

/// What comes then where the page is loaded again. What stands behind `#` in its address stays.
pub const REFRESH: &str = "\
<script>setTimeout(() => location.reload(), 2000)</script>
";

/// What comes then, before the picture.
pub const LOOKS: &str = "\
<style>
body{margin:8px;font:15px Arial,Helvetica,sans-serif;color:black;background:white}
#picture svg{display:block;max-width:100%;height:auto}
#picture [role=button]{cursor:pointer;outline:none}
rect.box{fill:none;stroke:none;pointer-events:visible}
.removed .box{stroke:black;stroke-width:1.5px;stroke-dasharray:5 3}
.beside-it .box{stroke:black;stroke-width:3px;stroke-dasharray:1 3}
.here .box{stroke:black;stroke-width:3px;stroke-dasharray:none}
#picture [role=button]:focus-visible .box{stroke:black;stroke-width:5px;stroke-dasharray:none}
.off{opacity:.3}
.later{visibility:hidden}
path.moves,.moves use{stroke-width:3px}
.moves text{font-weight:bold}
form{display:flex;flex-wrap:wrap;gap:8px;align-items:center;margin:8px 0}
#shown{flex:1 1 200px}
button{font:inherit}
#panels{display:flex;gap:16px}
#panels section{flex:1 1 0;min-width:0;border-top:2px solid black}
h2{font-size:17px;overflow-wrap:anywhere}
h3{font-size:15px;margin:8px 0 2px}
ol,p{margin:0}
ol{list-style:none;padding:0;max-height:32vh;overflow:auto}
li button{border:0;padding:1px 4px;background:none;text-align:left;cursor:pointer;overflow-wrap:anywhere}
button:focus-visible,ol:focus-visible,input:focus-visible{outline:3px solid black}
@media print{
@page{size:landscape;margin:10mm}
form{display:none}
ol{max-height:none;overflow:visible}
svg,li{break-inside:avoid}
}
</style>
</head>
<body>
<div id='picture'>
";

/// What comes between the picture and the entries.
pub const CONTROLS: &str = "\
</div>
<p id='legend'></p>
<form>
<label for='shown'>Run up to event</label>
<input id='shown' type='range' min='0' step='1'>
<output id='count' for='shown'></output>
<button type='button' id='keep' disabled>Keep beside</button>
<button type='button' id='decisions' hidden>Decisions that differ, side by side</button>
<button type='button' id='whole'>Whole run</button>
</form>
<main id='panels'><section id='kept' aria-label='The event kept beside' hidden></section>
<section id='event' aria-label='The event' aria-live='polite'></section></main>
<script>
'use strict';
const EVENTS=[
";

/// What comes after the entries.
pub const SCRIPT: &str = "\
];
const byId = id => document.getElementById(id);
const all = (what, inside) => [...inside.querySelectorAll(what)];
const svg = document.querySelector('svg');

// The marks of the events in order, their texts, and all that is drawn of each.
const marks = all('g', svg).filter(it => it.firstElementChild && it.firstElementChild.tagName === 'title');
const texts = marks.map(it => it.firstElementChild.textContent);
const arrows = all('path.copy,path.lost,path.read,path.write', svg);
const stubs = new Map(all('g.wait', svg).map(it => [it.getAttribute('transform'), it]));
const parts = marks.map(mark => {
  const shapes = all('use', mark).map(it => it.getAttribute('href').slice(1));
  const has = kinds => kinds.some(it => shapes.includes(it));
  const arrow = has(['recv', 'lost', 'read', 'write']) ? arrows.shift() : null;
  const held = has(['write']) ? mark.nextElementSibling : null;
  const stub = has(['send']) ? stubs.get(mark.getAttribute('transform')) : null;
  return [mark, arrow, held, stub].filter(it => it);
});
const last = EVENTS.length;
const nameOf = at => texts[at - 1].match(/^(lost [^ ]+ to [0-9]+|[^ ]+)/)[0];
const inputOf = p => all('.lane .input', svg)[p - 1].textContent;

// How many events are shown, the event that is asked about, and the one kept beside; 0 for none.
let shown = last, asked = 0, kept = 0;

// The position, and all to which one leads and those lead, in order.
const closure = (at, next) => {
  const found = new Set([at]);
  for (const it of found) next(EVENTS[it - 1]).forEach(other => found.add(other));
  return [...found].sort((one, other) => one - other);
};
const pastOf = at => closure(at, it => it.causes);
const removedBy = at => closure(at, it => it.dependents.filter(other => other <= shown));
const takesValue = at => EVENTS[at - 1].from > 0 || EVENTS[at - 1].input > 0;
const trailOf = at => {
  const found = [];
  for (let it = takesValue(at) ? at : 0; it > 0; it = EVENTS[it - 1].from) found.unshift(it);
  return found;
};
const undoOf = at => {
  const needed = EVENTS[at - 1].needed;
  if (needed > 0 && needed <= shown) return `refused 11 NeededBy ${nameOf(needed)}`;
  return `undone ${nameOf(at)}`;
};
const decides = text => (text.match(/ decides ([0-9]+)/) || [])[1];
const decisions = texts.map((text, i) => [i + 1, decides(text)]).filter(it => it[1]);
const differing = decisions.find(it => it[1] !== decisions[0][1]);

// ---- what is written of an event

const made = (tag, text, more) => Object.assign(document.createElement(tag), {textContent: text}, more);
const lineOf = at => {
  const item = made('li', '');
  const button = made('button', texts[at - 1], {type: 'button'});
  button.dataset.at = at;
  item.append(button);
  return item;
};
const listOf = (label, positions, first) => {
  const list = made('ol', '', {tabIndex: 0});
  list.setAttribute('aria-label', label);
  list.append(...(first ? [made('li', first)] : []), ...positions.map(lineOf));
  return [made('h3', label), list];
};
const write = (section, at) => {
  if (!at) {
    const what = last ? 'Click an event, or go with the arrow keys.' : 'No event stands.';
    return section.replaceChildren(made('p', what));
  }
  const [past, gone, trail] = [pastOf(at), removedBy(at), trailOf(at)];
  const input = trail.length ? EVENTS[trail[0] - 1].input : 0;
  const label = input ? 'trail of its value' : 'trail: it takes no value';
  section.replaceChildren(
    made('h2', texts[at - 1]),
    made('p', `undo would answer: ${undoOf(at)}`, {className: 'undo'}),
    ...listOf(`rollback would remove ${gone.length}`, gone),
    ...listOf(label, trail, input && `process ${input}, ${inputOf(input)}`),
    ...listOf(`past: ${past.length} of ${shown} events`, past));
};

// ---- what is drawn of it

const CLASSES = ['here', 'beside-it', 'removed', 'moves', 'off', 'later'];
const draw = () => {
  const both = [asked, kept].filter(it => it > 0);
  const past = new Set(both.flatMap(pastOf)), moves = new Set(both.flatMap(trailOf));
  const gone = new Set(asked ? removedBy(asked) : []);
  parts.forEach((its, i) => {
    const at = i + 1;
    const on = [at === asked, at === kept, gone.has(at) && at !== asked, moves.has(at),
                both.length > 0 && !past.has(at) && !gone.has(at), at > shown];
    CLASSES.forEach((name, k) => its.forEach(part => part.classList.toggle(name, on[k])));
    marks[i].setAttribute('aria-pressed', at === asked);
    marks[i].tabIndex = at === (asked || 1) ? 0 : -1;
  });
  byId('shown').value = shown;
  byId('count').textContent = `${shown} of ${last}`;
  byId('keep').disabled = !asked && !kept;
  byId('keep').textContent = kept ? 'Keep none beside' : 'Keep beside';
  byId('kept').hidden = !kept;
  byId('legend').textContent = !asked && !kept ? ''
    : 'Bold box: the event; dotted: the one kept beside. Thick: the trail of the value. '
    + 'Dashed: what a rollback would remove too. Pale: the rest.';
  write(byId('kept'), kept);
  write(byId('event'), asked);
  history.replaceState(null, '', '#' + (asked ? encodeURIComponent(nameOf(asked)) : ''));
};

// ---- what is asked for

const ask = (at, upTo, besides) => {
  [asked, shown, kept] = [at, Math.max(upTo, at, besides), besides];
  draw();
};
const go = at => {
  const to = Math.min(Math.max(at, 0), last);
  ask(to, to, kept <= to ? kept : 0);
  if (to && document.activeElement !== byId('shown')) marks[to - 1].focus();
};
marks.forEach((mark, i) => {
  const box = document.createElementNS('http://www.w3.org/2000/svg', 'rect');
  const place = {class: 'box', x: -25, y: -57, width: 50, height: 93};
  Object.entries(place).forEach(([name, value]) => box.setAttribute(name, value));
  mark.append(box);
  mark.setAttribute('role', 'button');
  mark.setAttribute('aria-label', texts[i]);
  mark.addEventListener('click', () => ask(i + 1, shown, kept));
});
svg.setAttribute('role', 'group');
svg.setAttribute('aria-label', 'The run');
byId('shown').max = last;
byId('shown').addEventListener('input', event => go(Number(event.target.value)));
byId('keep').addEventListener('click', () => ask(asked, shown, kept ? 0 : asked));
byId('whole').addEventListener('click', () => ask(0, last, 0));
byId('decisions').hidden = !differing;
byId('decisions').addEventListener('click', () => ask(differing[0], last, decisions[0][0]));
byId('panels').addEventListener('click', event => {
  const line = event.target.closest('button');
  if (line) ask(Number(line.dataset.at), shown, kept);
});
document.addEventListener('keydown', event => {
  if (event.altKey || event.ctrlKey || event.metaKey || event.target === byId('shown')) return;
  const to = {ArrowRight: shown + 1, ArrowLeft: shown - 1, Home: 1, End: last}[event.key];
  const at = marks.indexOf(event.target) + 1;
  if (to !== undefined) go(to);
  else if (event.key === 'Escape') ask(0, last, 0);
  else if (at > 0 && (event.key === 'Enter' || event.key === ' ')) ask(at, shown, kept);
  else return;
  event.preventDefault();
});
document.querySelector('form').addEventListener('submit', event => event.preventDefault());

// The event that is asked about is named in the address, and so it is asked about again where the page is loaded again.
const named = decodeURIComponent(location.hash.slice(1));
asked = texts.findIndex((text, i) => nameOf(i + 1) === named) + 1;
draw();
</script>
</body>
</html>
";

/// What a page has in its head of whether it is loaded again.
pub(crate) fn refresh_line(refresh: Refresh) -> &'static str
    ensures { result.now ≡ refresh_text refresh }
{
    match refresh {
        Refresh::Never => "",
        Refresh::EachTwoSeconds => REFRESH,
    }
}
