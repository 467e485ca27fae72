// The words of shapes, and their classes, which the style sheet colours.
ghost use Rattle.std.specs.Prelude.{◌≡◌, ◌++◌, [], OnOk};
ghost use Rattle.sa_svg.specs.Markup.{rect};
ghost use Rattle.sa_svg.specs.Words.{look_class, named, look_word, look_title, of_space, of_space_numbered, aimed_count, mark_class, mark_word};

use crate::markup::{Rect, push_numbered, push_numbered_rect, push_rect};
use sa_base::{Note, Record, SpaceNo};
use sa_shapes::{Look, MAX_LANES};
use std::alloc::AllocError;

/// Appends the bar of what a processor does.
pub(crate) fn push_look_rect(out: &mut Vec<u8>, look: Look, place: Rect) -> Result<(), AllocError>
    ensures { OnOk result (out.new.items ≡ out.old.items ++ rect (look_class look) place) }
{
    match look {
        Look::Unowned => push_rect(out, b"u", place),
        Look::Thread(s, _) => push_numbered_rect(out, b"t s", u64::from(s.0), place),
        Look::Package(s) | Look::Placed(s) | Look::GoesOn(s) | Look::List(s, _) => {
            push_numbered_rect(out, b"p s", u64::from(s.0), place)
        }
        Look::Idle(s) => push_numbered_rect(out, b"i s", u64::from(s.0), place),
        Look::Section(s) => push_numbered_rect(out, b"c s", u64::from(s.0), place),
    }
}

/// Appends the word of what a processor does, which names the space where that is asked for.
pub(crate) fn push_look_word(out: &mut Vec<u8>, names: bool, look: Look) -> Result<(), AllocError>
    ensures { OnOk result (out.new.items ≡ out.old.items ++ look_word names look) }
{
    match look {
        Look::Unowned => out.extend_from_slice(b"-"),
        Look::Thread(s, t) => {
            push_space(out, names, s)?;
            push_numbered(out, b"t", u64::from(t.0))
        }
        Look::List(s, l) => {
            push_space(out, names, s)?;
            push_numbered(out, b"L", u64::from(l.0))
        }
        Look::Package(s) => push_letter(out, names, s, b"p"),
        Look::Placed(s) => push_letter(out, names, s, b"v"),
        Look::GoesOn(s) => push_letter(out, names, s, b"g"),
        Look::Idle(s) => push_letter(out, names, s, b"i"),
        Look::Section(s) => push_letter(out, names, s, b"c"),
    }
}

fn push_letter(out: &mut Vec<u8>, names: bool, s: SpaceNo, letter: &[u8]) -> Result<(), AllocError>
    ensures { OnOk result (out.new.items ≡ out.old.items ++ named names s letter.now) }
{
    push_space(out, names, s)?;
    out.extend_from_slice(letter)
}

// Appends the space of a word, where it is asked for.
fn push_space(out: &mut Vec<u8>, names: bool, s: SpaceNo) -> Result<(), AllocError>
    ensures { OnOk result (out.new.items ≡ out.old.items ++ named names s []) }
{
    if names {
        push_numbered(out, b"", u64::from(s.0))?;
        return out.extend_from_slice(b":");
    }
    Ok(())
}

/// Appends what a processor does in words.
pub(crate) fn push_look_title(out: &mut Vec<u8>, look: Look) -> Result<(), AllocError>
    ensures { OnOk result (out.new.items ≡ out.old.items ++ look_title look) }
{
    match look {
        Look::Unowned => out.extend_from_slice(b"owned by no space"),
        Look::Thread(s, t) => push_of_space_numbered(out, s, b": thread ", u64::from(t.0)),
        Look::Package(s) => push_of_space(out, s, b": the package"),
        Look::List(s, l) => push_of_space_numbered(out, s, b": the package, list ", u64::from(l.0)),
        Look::Placed(s) => push_of_space(out, s, b": a virtual processor is placed"),
        Look::GoesOn(s) => push_of_space(out, s, b": a virtual processor goes on"),
        Look::Idle(s) => push_of_space(out, s, b": a look in vain"),
        Look::Section(s) => push_of_space(out, s, b": a section in its copy"),
    }
}

// Appends the space and what it does.
#[tactic(auto, unfolding(crate::specs::Words::of_space))]
fn push_of_space(out: &mut Vec<u8>, s: SpaceNo, does: &[u8]) -> Result<(), AllocError>
    ensures { OnOk result (out.new.items ≡ out.old.items ++ of_space s does.now) }
{
    push_numbered(out, b"space ", u64::from(s.0))?;
    out.extend_from_slice(does)
}

#[tactic(auto, unfolding(crate::specs::Words::of_space_numbered))]
fn push_of_space_numbered(
    out: &mut Vec<u8>,
    s: SpaceNo,
    does: &[u8],
    n: u64,
) -> Result<(), AllocError>
    ensures { OnOk result (out.new.items ≡ out.old.items ++ of_space_numbered s does.now n) }
{
    push_numbered(out, b"space ", u64::from(s.0))?;
    push_numbered(out, does, n)
}

/// How many processors are aimed.
pub(crate) fn aimed_count(aims: &[bool; MAX_LANES]) -> u16
    ensures { result ≡ aimed_count aims.now }
{
    let mut count = 0;
    for aimed in aims {
        if *aimed {
            count += 1;
        }
    }
    count
}

/// The class of a record's mark: an interrupt, a block or a return, an upcall, a hint, a lock or a fetch.
pub(crate) fn mark_class(what: &Record) -> &'static [u8]
    ensures { result.now ≡ mark_class what.now }
{
    match *what {
        Record::Line(_) | Record::Stop(..) => b"mi",
        Record::Block(..) | Record::Unblock(..) => b"mb",
        Record::Up(..) | Record::Told(_) => b"mu",
        Record::Want(..) => b"mh",
        Record::Take(..) | Record::Free(..) | Record::Spin(_) => b"ml",
        _ => b"mf",
    }
}

/// Appends the word of a record's mark.
pub(crate) fn push_mark_word(out: &mut Vec<u8>, what: &Record) -> Result<(), AllocError>
    ensures { OnOk result (out.new.items ≡ out.old.items ++ mark_word what.now) }
{
    match *what {
        Record::Line(_) => out.extend_from_slice(b"line"),
        Record::Stop(..) => out.extend_from_slice(b"stop"),
        Record::Block(..) => out.extend_from_slice(b"block"),
        Record::Unblock(..) => out.extend_from_slice(b"ret"),
        Record::Up(_, a) => push_numbered(out, b"up ", a.0),
        Record::Told(Note::Add(p)) => push_numbered(out, b"+P", u64::from(p.0)),
        Record::Told(Note::Preempted(a)) => push_numbered(out, b"pre", a.0),
        Record::Told(Note::Blocked(a)) => push_numbered(out, b"blk", a.0),
        Record::Told(Note::Unblocked(a)) => push_numbered(out, b"ret", a.0),
        Record::Want(_, n) => push_numbered(out, b"want ", u64::from(n)),
        Record::Take(..) => out.extend_from_slice(b"take"),
        Record::Free(..) => out.extend_from_slice(b"free"),
        Record::Spin(_) => out.extend_from_slice(b"spin"),
        Record::Fetch(_) => out.extend_from_slice(b"ftch"),
        Record::Fetched(_) => out.extend_from_slice(b"page"),
        _ => out.extend_from_slice(b"-"),
    }
}
