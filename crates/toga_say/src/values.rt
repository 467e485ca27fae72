// Lists of names with numbers.
ghost use Rattle.std.specs.Prelude.{◌≡◌, ◌++◌, ◌<◌, length, slice_index, codes, IfOk, OnOk};
ghost use Rattle.std.specs.List.{flat_map, enumerate_from};
ghost use Rattle.sa_laws.specs.State.{space_at};
ghost use Rattle.toga_source.specs.Show.{with_numbers};
ghost use Rattle.toga_say.specs.Scene.{of_space};
ghost use Rattle.toga_say.specs.Values.{cell_entries, cell_entry, cells_in, entries_line, entry_text, record_entries, record_entry, semaphore_entries, semaphore_entry, semaphores_in, values_text, word_of};

use crate::names::push_space;
use crate::scene::Scene;
use sa_base::{Item, SpaceNo};
use sa_text::print_number;
use sa_trace::{Kind, RECORD_KINDS, kind_counts};
use std::alloc::{AllocError, Global};
use std::marker::Model;
use toga_source::{Name, SpaceNames};

// The kinds of records, in the order of their numbers; that of the first notice stands for all.
const KINDS: [Kind; RECORD_KINDS] = [
    Kind::Ins,
    Kind::Out,
    Kind::Run,
    Kind::Stop,
    Kind::Block,
    Kind::Unblock,
    Kind::Cont,
    Kind::Back,
    Kind::Ready,
    Kind::Take,
    Kind::Free,
    Kind::Up,
    Kind::ToldAdd,
    Kind::Move,
    Kind::Want,
    Kind::Aim,
    Kind::Line,
    Kind::Fetch,
    Kind::Fetched,
    Kind::GiveBack,
    Kind::Idle,
    Kind::Spin,
    Kind::Tick,
];

/// A name with a number.
#[derive(Drop)]
struct Entry {
    name: Vec<u8>,
    number: u64,
}

impl Model for Entry {
    ghost use Rattle.toga_say.specs.Values.{EntryView};

    ghost Value = { EntryView };

    ghost view = { λ e. record { name = e.name.items; number = e.number } };
}

/// Appends how many records of each kind came, and what the cells and the semaphores hold.
#[tactic(auto, unfolding(crate::specs::Values::values_text))]
pub(crate) fn push_values(out: &mut Vec<u8>, alloc: Global, scene: &Scene) -> Result<(), AllocError>
    ensures { OnOk result (out.new.items ≡ out.old.items ++ values_text scene.now) }
{
    push_records(out, alloc, scene.items)?;
    push_cells(out, alloc, scene)?;
    push_semaphores(out, alloc, scene)
}

fn push_records(out: &mut Vec<u8>, alloc: Global, items: &[Item]) -> Result<(), AllocError>
    ensures { OnOk result (out.new.items ≡ out.old.items ++ entries_line (codes "records: ") (record_entries items.now)) }
{
    let entries = record_entries(alloc, items)?;
    push_entries_line(out, b"records: ", &entries)
}

fn push_cells(out: &mut Vec<u8>, alloc: Global, scene: &Scene) -> Result<(), AllocError>
    ensures { OnOk result (out.new.items ≡ out.old.items ++ entries_line (codes "cells: ") (cell_entries scene.now)) }
{
    let entries = cell_entries(alloc, scene)?;
    push_entries_line(out, b"cells: ", &entries)
}

fn push_semaphores(out: &mut Vec<u8>, alloc: Global, scene: &Scene) -> Result<(), AllocError>
    ensures { OnOk result (out.new.items ≡ out.old.items ++ entries_line (codes "semaphores: ") (semaphore_entries scene.now)) }
{
    let entries = semaphore_entries(alloc, scene)?;
    push_entries_line(out, b"semaphores: ", &entries)
}

// Appends entries in one line, if there are any.
#[tactic(auto, unfolding(crate::specs::Values::entries_line))]
fn push_entries_line(out: &mut Vec<u8>, begins: &[u8], entries: &[Entry]) -> Result<(), AllocError>
    ensures { OnOk result (out.new.items ≡ out.old.items ++ entries_line begins.now entries.now) }
{
    if entries.len() == 0 {
        return Ok(());
    }
    out.extend_from_slice(begins)?;
    push_entries(out, entries)?;
    out.extend_from_slice(b"\n")
}

// Appends entries, with a comma between each two.
fn push_entries(out: &mut Vec<u8>, entries: &[Entry]) -> Result<(), AllocError>
    ensures { OnOk result (out.new.items ≡ out.old.items ++ with_numbers entry_text entries.now) }
{
    for (place, entry) in entries.iter().enumerate() {
        push_entry(out, place, entry)?;
    }
    Ok(())
}

fn push_entry(out: &mut Vec<u8>, place: usize, entry: &Entry) -> Result<(), AllocError>
    ensures { OnOk result (out.new.items ≡ out.old.items ++ entry_text place entry.now) }
{
    if place != 0 {
        out.extend_from_slice(b", ")?;
    }
    out.extend_from_slice(&entry.name)?;
    out.extend_from_slice(b" ")?;
    print_number(entry.number, out)
}

// The kinds of records that came, and how many of each.
fn record_entries(alloc: Global, items: &[Item]) -> Result<Vec<Entry>, AllocError>
    ensures { IfOk result (λ entries. entries.items ≡ record_entries items.now) }
{
    kind_entries(alloc, &kind_counts(items), &KINDS)
}

fn kind_entries(alloc: Global, counts: &[u64], kinds: &[Kind]) -> Result<Vec<Entry>, AllocError>
    ensures { IfOk result (λ entries. entries.items
        ≡ flat_map (λ x. record_entry counts.now x.0 x.1) (enumerate_from 0 kinds.now)) }
{
    let mut entries = Vec::new(alloc);
    for (place, kind) in kinds.iter().enumerate() {
        add_kind(&mut entries, alloc, counts, place, *kind)?;
    }
    Ok(entries)
}

// Adds a kind, if it came.
fn add_kind(
    entries: &mut Vec<Entry>,
    alloc: Global,
    counts: &[u64],
    place: usize,
    kind: Kind,
) -> Result<(), AllocError>
    ensures { OnOk result (entries.new.items ≡ entries.old.items ++ record_entry counts.now place kind) }
{
    let number = count_at(counts, place);
    if number == 0 {
        return Ok(());
    }
    let name = Vec::from_slice(alloc, word_of(kind))?;
    entries.push(Entry { name, number })?;
    Ok(())
}

// The count at a place; 0 if there is none.
fn count_at(counts: &[u64], place: usize) -> u64
    ensures { result ≡ slice_index counts.now place }
{
    match counts.get(place) {
        Some(count) => *count,
        None => 0,
    }
}

// The word of a kind of records.
fn word_of(kind: Kind) -> &'static [u8]
    ensures { result.now ≡ word_of kind }
{
    match kind {
        Kind::ToldAdd => b"told",
        _ => kind.form().word,
    }
}

// What the cells hold.
fn cell_entries(alloc: Global, scene: &Scene) -> Result<Vec<Entry>, AllocError>
    ensures { IfOk result (λ entries. entries.items ≡ cell_entries scene.now) }
{
    let mut entries = Vec::new(alloc);
    for s in 0..scene.replay.spaces() {
        add_cells_at(&mut entries, alloc, scene, SpaceNo(s))?;
    }
    Ok(entries)
}

// Adds those of a space, if it has names.
fn add_cells_at(
    entries: &mut Vec<Entry>,
    alloc: Global,
    scene: &Scene,
    s: SpaceNo,
) -> Result<(), AllocError>
    requires { s.0 < length scene.now.replay.state.spaces }
    ensures { OnOk result (entries.new.items ≡ entries.old.items ++ of_space scene.now s (cells_in scene.now s)) }
{
    match scene.names.get(usize::from(s.0)) {
        None => Ok(()),
        Some(own) => add_cells(entries, alloc, scene, s, own),
    }
}

fn add_cells(
    entries: &mut Vec<Entry>,
    alloc: Global,
    scene: &Scene,
    s: SpaceNo,
    own: &SpaceNames,
) -> Result<(), AllocError>
    requires { s.0 < length scene.now.replay.state.spaces }
    ensures { OnOk result (entries.new.items ≡ entries.old.items ++ cells_in scene.now s own.now) }
{
    let cells = scene.replay.sync(s).cells();
    for (place, value) in cells.iter().enumerate() {
        entries.push(cell_entry(alloc, scene, own, place, *value)?)?;
    }
    Ok(())
}

fn cell_entry(
    alloc: Global,
    scene: &Scene,
    own: &SpaceNames,
    place: usize,
    number: u64,
) -> Result<Entry, AllocError>
    ensures { IfOk result (λ e. e ≡ cell_entry scene.now own.now place number) }
{
    let mut name = Vec::new(alloc);
    push_space(&mut name, scene, own)?;
    name.extend_from_slice(Name::at(own.cells(), place))?;
    Ok(Entry { name, number })
}

// The counts of the semaphores.
fn semaphore_entries(alloc: Global, scene: &Scene) -> Result<Vec<Entry>, AllocError>
    ensures { IfOk result (λ entries. entries.items ≡ semaphore_entries scene.now) }
{
    let mut entries = Vec::new(alloc);
    for s in 0..scene.replay.spaces() {
        add_semaphores_at(&mut entries, alloc, scene, SpaceNo(s))?;
    }
    Ok(entries)
}

// Adds those of a space, if it has names.
fn add_semaphores_at(
    entries: &mut Vec<Entry>,
    alloc: Global,
    scene: &Scene,
    s: SpaceNo,
) -> Result<(), AllocError>
    requires { s.0 < length scene.now.replay.state.spaces }
    ensures { OnOk result (entries.new.items ≡ entries.old.items ++ of_space scene.now s (semaphores_in scene.now s)) }
{
    match scene.names.get(usize::from(s.0)) {
        None => Ok(()),
        Some(own) => add_semaphores(entries, alloc, scene, s, own),
    }
}

fn add_semaphores(
    entries: &mut Vec<Entry>,
    alloc: Global,
    scene: &Scene,
    s: SpaceNo,
    own: &SpaceNames,
) -> Result<(), AllocError>
    requires { s.0 < length scene.now.replay.state.spaces }
    ensures { OnOk result (entries.new.items ≡ entries.old.items ++ semaphores_in scene.now s own.now) }
{
    for place in 0..scene.replay.sync(s).semaphores() {
        add_semaphore(entries, alloc, scene, s, own, place)?;
    }
    Ok(())
}

fn add_semaphore(
    entries: &mut Vec<Entry>,
    alloc: Global,
    scene: &Scene,
    s: SpaceNo,
    own: &SpaceNames,
    place: u16,
) -> Result<(), AllocError>
    requires space { s.0 < length scene.now.replay.state.spaces }
    requires place { place < length (space_at scene.now.replay.state s).sync.semaphores }
    ensures { OnOk result (entries.new.items ≡ entries.old.items ++ semaphore_entry scene.now s own.now place) }
{
    let mut name = Vec::new(alloc);
    push_space(&mut name, scene, own)?;
    name.extend_from_slice(Name::at(own.semaphores(), usize::from(place)))?;
    let number = u64::from(scene.replay.sync(s).count(place));
    entries.push(Entry { name, number })?;
    Ok(())
}
