// Tags, attributes and elements.
ghost use Rattle.std.specs.Prelude.{◌≡◌, ◌++◌, OnOk, codes};
ghost use Rattle.sa_svg.specs.Markup.{number, rect_attrs, text_tag, text_at, rect, numbered};

use sa_text::print_number;
use std::alloc::AllocError;

/// Where a rectangle is, and how large it is.
#[derive(Clone, Copy)]
pub struct Rect {
    pub x: u64,
    pub y: u64,
    pub width: u64,
    pub height: u64,
}

/// Appends an attribute with a number.
pub(crate) fn push_number(out: &mut Vec<u8>, name: &[u8], n: u64) -> Result<(), AllocError>
    ensures { OnOk result (out.new.items ≡ out.old.items ++ number name.now n) }
{
    out.extend_from_slice(b" ")?;
    out.extend_from_slice(name)?;
    out.extend_from_slice(b"=\"")?;
    print_number(n, out)?;
    out.extend_from_slice(b"\"")
}

/// Appends a word and a number after it.
pub(crate) fn push_numbered(out: &mut Vec<u8>, word: &[u8], n: u64) -> Result<(), AllocError>
    ensures { OnOk result (out.new.items ≡ out.old.items ++ numbered word.now n) }
{
    out.extend_from_slice(word)?;
    print_number(n, out)
}

/// Appends a rectangle of this class.
#[tactic(auto, unfolding(crate::specs::Markup::rect))]
pub(crate) fn push_rect(out: &mut Vec<u8>, class: &[u8], place: Rect) -> Result<(), AllocError>
    ensures { OnOk result (out.new.items ≡ out.old.items ++ rect class.now place) }
{
    out.extend_from_slice(b"<rect class=\"")?;
    out.extend_from_slice(class)?;
    push_rect_end(out, place)
}

/// Appends a rectangle of the class of this word and number.
#[tactic(auto, unfolding(crate::specs::Markup::rect))]
pub(crate) fn push_numbered_rect(
    out: &mut Vec<u8>,
    word: &[u8],
    n: u64,
    place: Rect,
) -> Result<(), AllocError>
    ensures { OnOk result (out.new.items ≡ out.old.items ++ rect (numbered word.now n) place) }
{
    out.extend_from_slice(b"<rect class=\"")?;
    push_numbered(out, word, n)?;
    push_rect_end(out, place)
}

// Appends what follows a rectangle's class: where it is, and how large.
#[tactic(auto, unfolding(crate::specs::Markup::rect_attrs))]
fn push_rect_end(out: &mut Vec<u8>, place: Rect) -> Result<(), AllocError>
    ensures { OnOk result (out.new.items ≡ out.old.items ++ codes "\"" ++ rect_attrs place ++ codes "/>") }
{
    out.extend_from_slice(b"\"")?;
    push_number(out, b"x", place.x)?;
    push_number(out, b"y", place.y)?;
    push_number(out, b"width", place.width)?;
    push_number(out, b"height", place.height)?;
    out.extend_from_slice(b"/>")
}

/// Appends words of this class.
#[tactic(auto, unfolding(crate::specs::Markup::text_at))]
pub(crate) fn push_words(
    out: &mut Vec<u8>,
    class: &[u8],
    x: u64,
    y: u64,
    words: &[u8],
) -> Result<(), AllocError>
    ensures { OnOk result (out.new.items ≡ out.old.items ++ text_at class.now x y words.now) }
{
    push_text_tag(out, class, x, y)?;
    out.extend_from_slice(words)?;
    out.extend_from_slice(b"</text>")
}

/// Appends this word and number as words of this class.
#[tactic(auto, unfolding(crate::specs::Markup::text_at))]
pub(crate) fn push_numbered_words(
    out: &mut Vec<u8>,
    class: &[u8],
    x: u64,
    y: u64,
    word: &[u8],
    n: u64,
) -> Result<(), AllocError>
    ensures { OnOk result (out.new.items ≡ out.old.items ++ text_at class.now x y (numbered word.now n)) }
{
    push_text_tag(out, class, x, y)?;
    push_numbered(out, word, n)?;
    out.extend_from_slice(b"</text>")
}

// Appends the beginning of words of this class.
#[tactic(auto, unfolding(crate::specs::Markup::text_tag, crate::specs::Markup::text_attrs))]
fn push_text_tag(out: &mut Vec<u8>, class: &[u8], x: u64, y: u64) -> Result<(), AllocError>
    ensures { OnOk result (out.new.items ≡ out.old.items ++ text_tag class.now x y) }
{
    out.extend_from_slice(b"<text class=\"")?;
    out.extend_from_slice(class)?;
    out.extend_from_slice(b"\"")?;
    push_number(out, b"x", x)?;
    push_number(out, b"y", y)?;
    out.extend_from_slice(b">")
}
