// A record's word and fields, printed where there is room for them.
ghost use Rattle.std.specs.Prelude.{◌≡◌, ◌+◌, ◌*◌, ◌/◌, ◌%◌, ◌<◌, ◌≤◌, [], ◌∷◌, ◌++◌, Some, codes, decimal, length};
ghost use Rattle.std.specs.List.{flat_map};
ghost use Rattle.arrayvec.specs.ArrayVec.{array_vec_len};
ghost use Rattle.sa_trace.specs.TraceText.{field, record_text};

use crate::kind::{MAX_FIELDS, MAX_WORD};
use crate::parts::Parts;
use arrayvec::ArrayVec;
use itoa::Buffer;
use sa_base::{Record, SpaceNo};

/// The digits of a number at most.
pub(crate) const NUMBER: usize = 20;

/// The bytes of a field at most: a space and a number.
pub(crate) const FIELD: usize = NUMBER + 1;

/// The bytes of text that are printed at once at most.
pub const LINES: usize = 4_096;

/// Some lines of a text, or the beginning of one. They take no memory.
pub type LineBuffer = ArrayVec<u8, LINES>;

/// The most bytes that a record has with a space before it.
pub(crate) const RECORD: usize = 1 + MAX_WORD + MAX_FIELDS * FIELD;

/// Appends these bytes.
pub(crate) fn put(out: &mut LineBuffer, bytes: &[u8])
    requires { array_vec_len out.old + length bytes.now ≤ LINES }
    ensures text { out.new.items ≡ out.old.items ++ bytes.now }
    ensures len { array_vec_len out.new ≡ array_vec_len out.old + length bytes.now }
{
    let Ok(()) = out.try_extend_from_slice(bytes) else {
        unreachable!()
    };
}

/// Appends a number in decimal.
pub(crate) fn push_decimal(out: &mut LineBuffer, n: u64)
    requires { array_vec_len out.old + NUMBER ≤ LINES }
    ensures text { out.new.items ≡ out.old.items ++ decimal n }
    ensures len { array_vec_len out.new ≤ array_vec_len out.old + NUMBER }
{
    if n < 100 {
        return push_short(out, n);
    }
    if n < 10_000 {
        push_short(out, n / 100);
        return push_pair(out, n % 100);
    }
    if n < 1_000_000 {
        push_short(out, n / 10_000);
        push_pair(out, n / 100 % 100);
        return push_pair(out, n % 100);
    }
    push_long(out, n);
}

// Appends a number of one digit or two.
#[inline]
#[tactic(auto, using(std::proofs::lemmas::Fmt::decimal_digit, itoa::proofs::Decimal::decimal_two))]
fn push_short(out: &mut LineBuffer, n: u64)
    requires short { n < 100 }
    requires room { array_vec_len out.old + 2 ≤ LINES }
    ensures text { out.new.items ≡ out.old.items ++ decimal n }
    ensures len { array_vec_len out.new ≤ array_vec_len out.old + 2 }
{
    if n < 10 {
        return put(out, &[b'0' + n as u8]);
    }
    put(out, &[b'0' + (n / 10) as u8, b'0' + (n % 10) as u8]);
}

// Appends two digits.
#[inline]
fn push_pair(out: &mut LineBuffer, n: u64)
    requires short { n < 100 }
    requires room { array_vec_len out.old + 2 ≤ LINES }
    ensures text { out.new.items ≡ out.old.items ++ (48 + n / 10) ∷ (48 + n % 10) ∷ [] }
    ensures len { array_vec_len out.new ≡ array_vec_len out.old + 2 }
{
    put(out, &[b'0' + (n / 10) as u8, b'0' + (n % 10) as u8]);
}

// Appends a number of any length. Out of line, so that a short one does not pay for the buffer.
#[inline(never)]
fn push_long(out: &mut LineBuffer, n: u64)
    requires { array_vec_len out.old + NUMBER ≤ LINES }
    ensures text { out.new.items ≡ out.old.items ++ decimal n }
    ensures len { array_vec_len out.new ≤ array_vec_len out.old + NUMBER }
{
    let mut buffer = Buffer::new();
    put(out, buffer.format(n).as_bytes());
}

/// Appends a space and a number.
#[tactic(auto, using(std::proofs::lemmas::Fmt::decimal_digit))]
pub(crate) fn push_number(out: &mut LineBuffer, n: u64)
    requires { array_vec_len out.old + FIELD ≤ LINES }
    ensures text { out.new.items ≡ out.old.items ++ field (Some n) }
    ensures len { array_vec_len out.new ≤ array_vec_len out.old + FIELD }
{
    if n < 10 {
        return put(out, &[b' ', b'0' + n as u8]);
    }
    put(out, b" ");
    push_decimal(out, n);
}

// Appends a space and a field: its number, or a dash where it is absent.
#[inline]
fn push_field(out: &mut LineBuffer, value: Option<u64>)
    requires { array_vec_len out.old + FIELD ≤ LINES }
    ensures text { out.new.items ≡ out.old.items ++ field value }
    ensures len { array_vec_len out.new ≤ array_vec_len out.old + FIELD }
{
    match value {
        None => put(out, b" -"),
        Some(n) => push_number(out, n),
    }
}

// Appends some fields in order.
fn push_fields(out: &mut LineBuffer, values: &[Option<u64>])
    requires { array_vec_len out.old + length values.now * FIELD ≤ LINES }
    ensures text { out.new.items ≡ out.old.items ++ flat_map field values.now }
    ensures len { array_vec_len out.new ≤ array_vec_len out.old + length values.now * FIELD }
{
    for &value in values {
        push_field(out, value);
    }
}

/// Appends a space, the word of the record's kind and the record's fields.
#[inline]
pub(crate) fn push_record(out: &mut LineBuffer, what: &Record)
    requires { array_vec_len out.old + RECORD ≤ LINES }
    ensures text { out.new.items ≡ out.old.items ++ codes " " ++ record_text what.now }
    ensures len { array_vec_len out.new ≤ array_vec_len out.old + RECORD }
{
    match *what {
        Record::Ins(s, t, place) => push_three(out, b" ins", s, t.0, place),
        Record::Run(s, t) => push_two(out, b" run", s, t.0),
        Record::Ready(s, t) => push_two(out, b" ready", s, t.0),
        Record::Take(s, l, Some(t)) => push_three(out, b" take", s, l.0, t.0),
        Record::Free(s, l, Some(t)) => push_three(out, b" free", s, l.0, t.0),
        Record::Want(s, demand) => push_two(out, b" want", s, demand),
        Record::Idle => put(out, b" idle"),
        Record::Spin(l) => push_one(out, b" spin", l.0),
        Record::Tick => put(out, b" tick"),
        _ => push_parts(out, what),
    }
}

// Appends a word and a number as a field.
#[inline]
fn push_one(out: &mut LineBuffer, word: &[u8], a: u16)
    requires { array_vec_len out.old + length word.now + FIELD ≤ LINES }
    ensures text { out.new.items ≡ out.old.items ++ word.now ++ flat_map field (Some a ∷ []) }
    ensures len { array_vec_len out.new ≤ array_vec_len out.old + length word.now + FIELD }
{
    put(out, word);
    push_number(out, u64::from(a));
}

// Appends a word, a space's number and another number as fields.
#[inline]
fn push_two(out: &mut LineBuffer, word: &[u8], s: SpaceNo, a: u16)
    requires { array_vec_len out.old + length word.now + 2 * FIELD ≤ LINES }
    ensures text { out.new.items ≡ out.old.items ++ word.now ++ flat_map field (Some s.0 ∷ Some a ∷ []) }
    ensures len { array_vec_len out.new ≤ array_vec_len out.old + length word.now + 2 * FIELD }
{
    push_one(out, word, s.0);
    push_number(out, u64::from(a));
}

// Appends a word, a space's number and two other numbers as fields.
#[inline]
fn push_three(out: &mut LineBuffer, word: &[u8], s: SpaceNo, a: u16, b: u16)
    requires { array_vec_len out.old + length word.now + 3 * FIELD ≤ LINES }
    ensures text { out.new.items
        ≡ out.old.items ++ word.now ++ flat_map field (Some s.0 ∷ Some a ∷ Some b ∷ []) }
    ensures len { array_vec_len out.new ≤ array_vec_len out.old + length word.now + 3 * FIELD }
{
    push_two(out, word, s, a);
    push_number(out, u64::from(b));
}

// Appends a space, the word of any record's kind and the record's fields.
fn push_parts(out: &mut LineBuffer, what: &Record)
    requires { array_vec_len out.old + RECORD ≤ LINES }
    ensures text { out.new.items ≡ out.old.items ++ codes " " ++ record_text what.now }
    ensures len { array_vec_len out.new ≤ array_vec_len out.old + RECORD }
{
    let parts = Parts::of(what);
    put(out, b" ");
    put(out, parts.kind().form().word);
    push_fields(out, parts.fields());
}
