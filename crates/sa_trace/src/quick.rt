// A line of a common form, read in one pass over the bytes from it on.
ghost use Rattle.std.specs.Prelude.{◌≡◌, ◌+◌, ◌*◌, ◌<◌, ◌≤◌, ◌↔◌, ◌∷◌, ◌++◌, Some, IfSome, IsTrue, codes, decimal, length};
ghost use Rattle.sa_trace.specs.Parts.{parts_of, FitTheKind};
ghost use Rattle.sa_trace.specs.TraceText.{field, record_text, line_of};
ghost use Rattle.sa_trace.specs.Text.{FitsItem, MayFollow};

use crate::so_far::SoFar;
use sa_base::{Item, ProcNo, Record, SpaceNo, ThreadNo};

// Digits are read on only behind a number up to this one, so that none is too large for 64 bits.
const MOST: u64 = 100_000_000_000_000_000;

// The bytes of a space and a number of 16 bits at most, those of the longest word of a common kind, and those of what follows
// the event of a line of a common form.
const FIELD: usize = 6;

const WORD: usize = 5;

const BEHIND: usize = 32;

/// An item, and the bytes behind its line.
#[derive(Clone, Copy)]
pub(crate) struct Found<'a> {
    pub(crate) item: Item,
    pub(crate) rest: &'a [u8],
}

// A number at the front of bytes, and the bytes behind it.
#[derive(Clone, Copy)]
struct Front<'a> {
    number: u64,
    rest: &'a [u8],
}

// The same of a number of 16 bits.
#[derive(Clone, Copy)]
struct SmallFront<'a> {
    number: u16,
    rest: &'a [u8],
}

// The same, or none.
#[derive(Clone, Copy)]
struct FrontOrNone<'a> {
    number: Option<u16>,
    rest: &'a [u8],
}

// Two such numbers.
#[derive(Clone, Copy)]
struct Pair<'a> {
    first: u16,
    second: u16,
    rest: &'a [u8],
}

// A record, and the bytes behind it.
#[derive(Clone, Copy)]
struct Told<'a> {
    what: Record,
    rest: &'a [u8],
}

/// The item that the first line of these bytes tells, if it is of a common form and may follow those so far. `None` says
/// nothing of the line.
#[inline(always)]
pub(crate) fn quick_item<'a>(so_far: &SoFar, bytes: &'a [u8]) -> Option<Found<'a>>
    ensures text { IfSome result (λ found. bytes.now ≡ line_of found.item ++ found.rest.now) }
    ensures fits { IfSome result (λ found. FitsItem found.item) }
    ensures follows { IfSome result (λ found. MayFollow so_far.now.last found.item) }
{
    let found = item_of(bytes)?;
    if may_follow(&so_far.last, &found.item) {
        Some(found)
    } else {
        None
    }
}

// Whether an item may follow this one.
#[inline]
fn may_follow(last: &Option<Item>, item: &Item) -> bool
    ensures { IsTrue result ↔ MayFollow last.now item.now }
{
    match last {
        None => true,
        Some(last) => {
            last.event < item.event || (last.event == item.event && last.proc.0 == item.proc.0)
        }
    }
}

// The item of the first line: its event, its processor, and a record of a common kind.
#[inline(always)]
fn item_of(bytes: &[u8]) -> Option<Found<'_>>
    ensures text { IfSome result (λ found. bytes.now ≡ line_of found.item ++ found.rest.now) }
    ensures fits { IfSome result (λ found. FitsItem found.item) }
{
    let event = number(bytes)?;
    if event.rest.len() < BEHIND {
        return None;
    }
    let proc = small(event.rest)?;
    let told = record(proc.rest)?;
    let rest = behind(told.rest, b'\n')?;
    let item = Item {
        event: event.number,
        proc: ProcNo(proc.number),
        what: told.what,
    };
    Some(Found { item, rest })
}

// A number in decimal at the front of these bytes.
#[inline]
#[tactic(auto, using(crate::proofs::ItemLines::digit_front, crate::proofs::ItemLines::zero_front))]
fn number(bytes: &[u8]) -> Option<Front<'_>>
    ensures { IfSome result (λ front. bytes.now ≡ decimal front.number ++ front.rest.now) }
{
    let (first, rest) = bytes.split_first()?;
    match *first {
        b'0' => Some(Front { number: 0, rest }),
        b'1'..=b'9' => digits(u64::from(*first - b'0'), rest),
        _ => None,
    }
}

// A number of which these are the first digits, and of which more may be at the front of these bytes.
#[tactic(auto, using(crate::proofs::ItemLines::digits_more))]
fn digits(first: u64, bytes: &[u8]) -> Option<Front<'_>>
    requires { 0 < first }
    ensures { IfSome result (λ front.
        decimal first ++ bytes.now ≡ decimal front.number ++ front.rest.now) }
{
    let mut number = first;
    for (at, byte) in bytes.iter().enumerate() {
        if !byte.is_ascii_digit() {
            return Some(Front {
                number,
                rest: &bytes[at..],
            });
        }
        if number > MOST {
            return None;
        }
        number = number * 10 + u64::from(*byte - b'0');
    }
    Some(Front { number, rest: &[] })
}

// A space and a number of 16 bits at the front of these bytes.
#[inline]
#[tactic(auto, using(crate::proofs::ItemLines::digit_front, crate::proofs::ItemLines::digits_front))]
fn small(bytes: &[u8]) -> Option<SmallFront<'_>>
    requires { FIELD ≤ length bytes.now }
    ensures text { IfSome result (λ front. bytes.now ≡ field (Some front.number) ++ front.rest.now) }
    ensures few { IfSome result (λ front. length bytes.now ≤ length front.rest.now + FIELD) }
{
    let digits = behind(bytes, b' ')?;
    let (first, one) = split(digits);
    let (second, two) = split(one);
    if !first.is_ascii_digit() {
        return None;
    }
    if !second.is_ascii_digit() {
        return Some(SmallFront {
            number: u16::from(first - b'0'),
            rest: one,
        });
    }
    let (third, _) = split(two);
    if first == b'0' || third.is_ascii_digit() {
        return small_of_any_length(bytes);
    }
    Some(SmallFront {
        number: u16::from(first - b'0') * 10 + u16::from(second - b'0'),
        rest: two,
    })
}

// The same, or a space and the mark of none.
#[inline]
fn small_or_none(bytes: &[u8]) -> Option<FrontOrNone<'_>>
    requires { FIELD ≤ length bytes.now }
    ensures text { IfSome result (λ front. bytes.now ≡ field front.number ++ front.rest.now) }
    ensures few { IfSome result (λ front. length bytes.now ≤ length front.rest.now + FIELD) }
{
    if let Some(rest) = behind_two(bytes, b' ', b'-') {
        return Some(FrontOrNone { number: None, rest });
    }
    let SmallFront { number, rest } = small(bytes)?;
    Some(FrontOrNone {
        number: Some(number),
        rest,
    })
}

// The same of a number with any number of digits.
#[inline(never)]
fn small_of_any_length(bytes: &[u8]) -> Option<SmallFront<'_>>
    ensures text { IfSome result (λ front. bytes.now ≡ field (Some front.number) ++ front.rest.now) }
    ensures few { IfSome result (λ front. length bytes.now ≤ length front.rest.now + FIELD) }
{
    let (first, digits) = bytes.split_first()?;
    let front = number(digits)?;
    let number = u16::try_from(front.number).ok()?;
    if *first != b' ' || bytes.len() - front.rest.len() > FIELD {
        return None;
    }
    Some(SmallFront {
        number,
        rest: front.rest,
    })
}

// Two spaces with a number of 16 bits behind each at the front of these bytes.
#[inline(always)]
fn two_fields(bytes: &[u8]) -> Option<Pair<'_>>
    requires { 2 * FIELD ≤ length bytes.now }
    ensures text { IfSome result (λ front.
        bytes.now ≡ field (Some front.first) ++ field (Some front.second) ++ front.rest.now) }
    ensures few { IfSome result (λ front. length bytes.now ≤ length front.rest.now + 2 * FIELD) }
{
    let first = small(bytes)?;
    let second = small(first.rest)?;
    Some(Pair {
        first: first.number,
        second: second.number,
        rest: second.rest,
    })
}

// The record of a common kind behind a space at the front of these bytes.
#[inline]
fn record(bytes: &[u8]) -> Option<Told<'_>>
    requires { WORD + 3 * FIELD + 2 ≤ length bytes.now }
    ensures text { IfSome result (λ told. bytes.now ≡ codes " " ++ record_text told.what ++ told.rest.now) }
    ensures fit { IfSome result (λ told. FitTheKind (parts_of told.what)) }
    ensures some { IfSome result (λ told. 1 ≤ length told.rest.now) }
{
    let (first, rest) = split(behind(bytes, b' ')?);
    match first {
        b'i' => ins_or_idle(rest),
        b'r' => run_or_ready(rest),
        b't' => take(behind_three(rest, b'a', b'k', b'e')?),
        b'f' => free(behind_three(rest, b'r', b'e', b'e')?),
        b'w' => want(behind_three(rest, b'a', b'n', b't')?),
        b's' => spin(behind_three(rest, b'p', b'i', b'n')?),
        _ => None,
    }
}

// The record whose word begins with `i`, which these bytes are behind.
#[inline]
fn ins_or_idle(bytes: &[u8]) -> Option<Told<'_>>
    requires { WORD + 3 * FIELD ≤ length bytes.now }
    ensures text { IfSome result (λ told.
        codes " i" ++ bytes.now ≡ codes " " ++ record_text told.what ++ told.rest.now) }
    ensures fit { IfSome result (λ told. FitTheKind (parts_of told.what)) }
    ensures some { IfSome result (λ told. 1 ≤ length told.rest.now) }
{
    if let Some(fields) = behind_two(bytes, b'n', b's') {
        return ins(fields);
    }
    let rest = behind_three(bytes, b'd', b'l', b'e')?;
    let what = Record::Idle;
    Some(Told { what, rest })
}

// The same of a word that begins with `r`.
#[inline]
fn run_or_ready(bytes: &[u8]) -> Option<Told<'_>>
    requires { WORD + 3 * FIELD ≤ length bytes.now }
    ensures text { IfSome result (λ told.
        codes " r" ++ bytes.now ≡ codes " " ++ record_text told.what ++ told.rest.now) }
    ensures fit { IfSome result (λ told. FitTheKind (parts_of told.what)) }
    ensures some { IfSome result (λ told. 1 ≤ length told.rest.now) }
{
    if let Some(fields) = behind_two(bytes, b'u', b'n') {
        return run(fields);
    }
    ready(behind_two(behind_two(bytes, b'e', b'a')?, b'd', b'y')?)
}

// The first of these bytes, and what is behind it.
#[inline]
fn split(bytes: &[u8]) -> (u8, &[u8])
    requires { 1 ≤ length bytes.now }
    ensures bytes { bytes.now ≡ result.0 ∷ result.1.now }
    ensures length { length bytes.now ≡ length result.1.now + 1 }
{
    let (first, rest) = bytes.split_first().unwrap();
    (*first, rest)
}

// What is behind this byte, where these bytes begin with it.
#[inline]
fn behind(bytes: &[u8], byte: u8) -> Option<&[u8]>
    requires { 1 ≤ length bytes.now }
    ensures bytes { IfSome result (λ rest. bytes.now ≡ byte ∷ rest.now) }
    ensures length { IfSome result (λ rest. length bytes.now ≡ length rest.now + 1) }
{
    let (first, rest) = split(bytes);
    if first == byte { Some(rest) } else { None }
}

// The same of two bytes.
#[inline]
fn behind_two(bytes: &[u8], one: u8, two: u8) -> Option<&[u8]>
    requires { 2 ≤ length bytes.now }
    ensures bytes { IfSome result (λ rest. bytes.now ≡ one ∷ two ∷ rest.now) }
    ensures length { IfSome result (λ rest. length bytes.now ≡ length rest.now + 2) }
{
    behind(behind(bytes, one)?, two)
}

// The same of three bytes.
#[inline]
fn behind_three(bytes: &[u8], one: u8, two: u8, three: u8) -> Option<&[u8]>
    requires { 3 ≤ length bytes.now }
    ensures bytes { IfSome result (λ rest. bytes.now ≡ one ∷ two ∷ three ∷ rest.now) }
    ensures length { IfSome result (λ rest. length bytes.now ≡ length rest.now + 3) }
{
    behind(behind_two(bytes, one, two)?, three)
}

// The records whose fields are at the front of these bytes.

#[inline]
fn ins(fields: &[u8]) -> Option<Told<'_>>
    requires { 3 * FIELD + 1 ≤ length fields.now }
    ensures text { IfSome result (λ told.
        codes " ins" ++ fields.now ≡ codes " " ++ record_text told.what ++ told.rest.now) }
    ensures fit { IfSome result (λ told. FitTheKind (parts_of told.what)) }
    ensures some { IfSome result (λ told. 1 ≤ length told.rest.now) }
{
    let front = two_fields(fields)?;
    let SmallFront { number, rest } = small(front.rest)?;
    let what = Record::Ins(SpaceNo(front.first), ThreadNo(front.second), number);
    Some(Told { what, rest })
}

#[inline]
fn run(fields: &[u8]) -> Option<Told<'_>>
    requires { 2 * FIELD + 1 ≤ length fields.now }
    ensures text { IfSome result (λ told.
        codes " run" ++ fields.now ≡ codes " " ++ record_text told.what ++ told.rest.now) }
    ensures fit { IfSome result (λ told. FitTheKind (parts_of told.what)) }
    ensures some { IfSome result (λ told. 1 ≤ length told.rest.now) }
{
    let Pair {
        first,
        second,
        rest,
    } = two_fields(fields)?;
    let what = Record::Run(SpaceNo(first), ThreadNo(second));
    Some(Told { what, rest })
}

#[inline]
fn ready(fields: &[u8]) -> Option<Told<'_>>
    requires { 2 * FIELD + 1 ≤ length fields.now }
    ensures text { IfSome result (λ told.
        codes " ready" ++ fields.now ≡ codes " " ++ record_text told.what ++ told.rest.now) }
    ensures fit { IfSome result (λ told. FitTheKind (parts_of told.what)) }
    ensures some { IfSome result (λ told. 1 ≤ length told.rest.now) }
{
    let Pair {
        first,
        second,
        rest,
    } = two_fields(fields)?;
    let what = Record::Ready(SpaceNo(first), ThreadNo(second));
    Some(Told { what, rest })
}

#[inline]
fn take(fields: &[u8]) -> Option<Told<'_>>
    requires { 3 * FIELD + 1 ≤ length fields.now }
    ensures text { IfSome result (λ told.
        codes " take" ++ fields.now ≡ codes " " ++ record_text told.what ++ told.rest.now) }
    ensures fit { IfSome result (λ told. FitTheKind (parts_of told.what)) }
    ensures some { IfSome result (λ told. 1 ≤ length told.rest.now) }
{
    let front = two_fields(fields)?;
    let FrontOrNone { number, rest } = small_or_none(front.rest)?;
    let what = Record::Take(
        SpaceNo(front.first),
        ProcNo(front.second),
        number.map(ThreadNo),
    );
    Some(Told { what, rest })
}

#[inline]
fn free(fields: &[u8]) -> Option<Told<'_>>
    requires { 3 * FIELD + 1 ≤ length fields.now }
    ensures text { IfSome result (λ told.
        codes " free" ++ fields.now ≡ codes " " ++ record_text told.what ++ told.rest.now) }
    ensures fit { IfSome result (λ told. FitTheKind (parts_of told.what)) }
    ensures some { IfSome result (λ told. 1 ≤ length told.rest.now) }
{
    let front = two_fields(fields)?;
    let FrontOrNone { number, rest } = small_or_none(front.rest)?;
    let what = Record::Free(
        SpaceNo(front.first),
        ProcNo(front.second),
        number.map(ThreadNo),
    );
    Some(Told { what, rest })
}

#[inline]
fn want(fields: &[u8]) -> Option<Told<'_>>
    requires { 2 * FIELD + 1 ≤ length fields.now }
    ensures text { IfSome result (λ told.
        codes " want" ++ fields.now ≡ codes " " ++ record_text told.what ++ told.rest.now) }
    ensures fit { IfSome result (λ told. FitTheKind (parts_of told.what)) }
    ensures some { IfSome result (λ told. 1 ≤ length told.rest.now) }
{
    let Pair {
        first,
        second,
        rest,
    } = two_fields(fields)?;
    let what = Record::Want(SpaceNo(first), second);
    Some(Told { what, rest })
}

#[inline]
fn spin(fields: &[u8]) -> Option<Told<'_>>
    requires { FIELD + 1 ≤ length fields.now }
    ensures text { IfSome result (λ told.
        codes " spin" ++ fields.now ≡ codes " " ++ record_text told.what ++ told.rest.now) }
    ensures fit { IfSome result (λ told. FitTheKind (parts_of told.what)) }
    ensures some { IfSome result (λ told. 1 ≤ length told.rest.now) }
{
    let SmallFront { number, rest } = small(fields)?;
    let what = Record::Spin(ProcNo(number));
    Some(Told { what, rest })
}
