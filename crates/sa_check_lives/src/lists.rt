// Of each space: the lives that were taken, and the notices that it was not told.
ghost use Rattle.std.specs.Prelude.{◌≡◌, [], OnOk, OnErr, IfOk, filter, replicate};
ghost use Rattle.sa_laws.specs.Record.{is_other_act, is_other_note, same_note, without_note, without_act};
ghost use Rattle.sa_check_lives.specs.Rows.{row_at, with_item, without_last};

use sa_base::{ActNo, Note, SpaceNo};
use std::alloc::{AllocError, Global};
use std::marker::Model;

/// Items of one space, in order.
#[derive(Drop)]
pub(crate) struct Row<T: Copy> {
    items: Vec<T>,
}

impl<T: Copy> Model for Row<T> {
    ghost use Rattle.std.specs.Prelude.{List};

    ghost Value = { List T };

    ghost view = { λ x. x.items.items };
}

/// An empty row for each space.
pub(crate) fn no_rows<T: Copy>(alloc: Global, spaces: u16) -> Result<Vec<Row<T>>, AllocError>
    ensures { IfOk result (λ rows. rows.items ≡ replicate spaces []) }
{
    let mut rows = Vec::new(alloc);
    for _ in 0..spaces {
        rows.push(Row {
            items: Vec::new(alloc),
        })?;
    }
    Ok(rows)
}

/// The row of a space; past the spaces there is an empty one.
pub(crate) fn row_at<T: Copy>(rows: &[Row<T>], s: SpaceNo) -> &[T]
    ensures { result.now ≡ row_at rows.now s }
{
    match rows.get(usize::from(s.0)) {
        None => &[],
        Some(row) => row.items.as_slice(),
    }
}

/// Puts an item after the others of the space. An error changes nothing.
pub(crate) fn add<T: Copy>(rows: &mut Vec<Row<T>>, s: SpaceNo, item: T) -> Result<(), AllocError>
    ensures ok { OnOk result (rows.new.items ≡ with_item rows.old.items s item) }
    ensures err { OnErr result (rows.new.items ≡ rows.old.items) }
{
    if usize::from(s.0) >= rows.len() {
        return Ok(());
    }
    rows[usize::from(s.0)].items.push(item)?;
    Ok(())
}

/// Takes out the last item of the space.
pub(crate) fn undo<T: Copy>(rows: &mut Vec<Row<T>>, s: SpaceNo)
    ensures { rows.new.items ≡ without_last rows.old.items s }
{
    if usize::from(s.0) < rows.len() {
        rows[usize::from(s.0)].items.pop();
    }
}

/// The life is not in the row of the space any more, if one is given.
pub(crate) fn remove_act(rows: &mut [Row<ActNo>], s: Option<SpaceNo>, a: ActNo)
    ensures { rows.new ≡ without_act rows.old s a }
{
    let Some(space) = s else {
        return;
    };
    if usize::from(space.0) < rows.len() {
        drop_act(&mut rows[usize::from(space.0)], a);
    }
}

/// The notice is in no row any more.
pub(crate) fn remove_note(rows: &mut [Row<Note>], note: Note)
    ensures { rows.new ≡ without_note rows.old note }
{
    for i in 0..rows.len() {
        drop_note(&mut rows[i], note);
    }
}

// The two notices are the same.
fn is_same(note: Note, other: Note) -> bool
    ensures { result ≡ same_note note other }
{
    match (note, other) {
        (Note::Add(p), Note::Add(q)) => p.0 == q.0,
        (Note::Preempted(a), Note::Preempted(b)) => a.0 == b.0,
        (Note::Blocked(a), Note::Blocked(b)) => a.0 == b.0,
        (Note::Unblocked(a), Note::Unblocked(b)) => a.0 == b.0,
        _ => false,
    }
}

fn drop_act(row: &mut Row<ActNo>, a: ActNo)
    ensures { row.new ≡ filter (is_other_act a) row.old }
{
    row.items.retain(|b| b.0 != a.0);
}

fn drop_note(row: &mut Row<Note>, note: Note)
    ensures { row.new ≡ filter (is_other_note note) row.old }
{
    row.items.retain(|other| !is_same(*other, note));
}
