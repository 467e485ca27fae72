// The lines of what the spaces of a run on virtual processors have lost.
ghost use Rattle.std.specs.Prelude.{◌≡◌, ◌+◌, ◌≤◌, ◌<◌, ◌++◌, [], decimal, length};
ghost use Rattle.arrayvec.specs.ArrayVec.{array_vec_len};
ghost use Rattle.sa_base.specs.declared.limits.TheConstants.{MAX_SPACES};
ghost use Rattle.sa_trace.specs.Losses.{loss_line, losses_text};
ghost use Rattle.sa_trace.specs.declared.fields.TheConstants.{LINES};

use crate::fields::{LineBuffer, NUMBER, push_decimal, put};

// The digits of a space's number at most, and the bytes of the line of a space.
const SPACE: usize = 2;

const LOSS: usize = 5 + SPACE + 1 + NUMBER + 1;

/// Prints the lines of what each space has lost, in the order of the spaces, where no text is.
pub fn print_losses(lost: &[u64], out: &mut LineBuffer)
    requires empty { out.old.items ≡ [] }
    requires few { length lost.now ≤ MAX_SPACES }
    ensures { out.new.items ≡ losses_text lost.now }
{
    for s in 0..lost.len() {
        push_loss(out, s as u16, lost[s]);
    }
}

// Appends the line of what a space has lost.
fn push_loss(out: &mut LineBuffer, s: u16, lost: u64)
    requires space { s < MAX_SPACES }
    requires room { array_vec_len out.old + LOSS ≤ LINES }
    ensures text { out.new.items ≡ out.old.items ++ loss_line s lost }
    ensures len { array_vec_len out.new ≤ array_vec_len out.old + LOSS }
{
    put(out, b"lost ");
    push_space(out, s);
    put(out, b" ");
    push_decimal(out, lost);
    put(out, b"\n");
}

// Appends the number of a space.
#[tactic(auto, using(std::proofs::lemmas::Fmt::decimal_digit, itoa::proofs::Decimal::decimal_two))]
fn push_space(out: &mut LineBuffer, s: u16)
    requires space { s < MAX_SPACES }
    requires room { array_vec_len out.old + SPACE ≤ LINES }
    ensures text { out.new.items ≡ out.old.items ++ decimal s }
    ensures len { array_vec_len out.new ≤ array_vec_len out.old + SPACE }
{
    if s < 10 {
        return put(out, &[b'0' + s as u8]);
    }
    put(out, &[b'0' + (s / 10) as u8, b'0' + (s % 10) as u8]);
}
