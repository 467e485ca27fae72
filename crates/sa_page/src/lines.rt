// The lines of a trace, each with its words.
ghost use Rattle.std.specs.Prelude.{◌≡◌, ◌++◌, OnOk};
ghost use Rattle.sa_check_lives.specs.View.{lives_of};
ghost use Rattle.sa_page.specs.Page.{in_copy_on, item_text, items_text, said};

use sa_base::{Item, ProcNo};
use sa_cells::push_words;
use sa_check_lives::Lives;
use sa_instr::Instr;
use sa_programs::Programs;
use sa_spaces::Workload;
use sa_trace::append_line;
use std::alloc::{AllocError, Global};

/// Appends the line of each item of a trace of this workload, and after it what its record says in words.
pub(crate) fn push_items(
    out: &mut Vec<u8>,
    alloc: Global,
    workload: &Workload,
    items: &[Item],
) -> Result<(), AllocError>
    ensures { OnOk result (out.new.items ≡ out.old.items ++ said workload.now items.now) }
{
    workload.ranges();
    let spaces = workload.spaces().len() as u16;
    let mut lives = Lives::new(alloc, workload.processors(), spaces)?;
    let mut programs = Programs::new(alloc, spaces)?;
    push_from(out, workload, &mut lives, &mut programs, items)
}

// The same of items that come after these lives, and threads of these programs.
fn push_from(
    out: &mut Vec<u8>,
    workload: &Workload,
    lives: &mut Lives,
    programs: &mut Programs,
    items: &[Item],
) -> Result<(), AllocError>
    ensures { OnOk result (out.new.items
        ≡ out.old.items ++ items_text workload.now (lives_of lives.old) programs.old items.now) }
{
    for item in items {
        let instr = programs.instr(workload, &item.what);
        push_item(out, in_copy_on(lives, item.proc), instr, item)?;
        lives.read(item.proc, item.what, &[], false)?;
        programs.read(&item.what, instr)?;
    }
    Ok(())
}

// The life that runs on the processor is in the copy of a section.
fn in_copy_on(lives: &Lives, p: ProcNo) -> bool
    ensures { result ≡ in_copy_on (lives_of lives.now) p }
{
    match lives.life_on(p) {
        None => false,
        Some(life) => life.cont(),
    }
}

#[tactic(auto, unfolding(crate::specs::Page::item_text))]
fn push_item(
    out: &mut Vec<u8>,
    in_copy: bool,
    instr: Option<Instr>,
    item: &Item,
) -> Result<(), AllocError>
    ensures { OnOk result (out.new.items ≡ out.old.items ++ item_text in_copy instr item.now) }
{
    append_line(out, item)?;
    push_words(out, in_copy, instr, &item.what)?;
    out.extend_from_slice(b"\n")
}
