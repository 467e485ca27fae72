// Which words are names and registers.
ghost use Rattle.std.specs.Prelude.{◌≡◌, ◌-◌, ◌↔◌, IsTrue, IsSome, IfSome, slice_index};
ghost use Rattle.std.specs.List.{list_all};
ghost use Rattle.sa_instr.specs.Instr.{reg_number};
ghost use Rattle.toga_lines.specs.Names.{is_letter, is_name, is_name_byte, is_register};

use sa_instr::Reg;

/// The bytes of a name at most.
pub const MAX_NAME: usize = 32;

/// Whether the word is a name: a letter or `_`, then letters, digits and `_`, not too long, and no register.
pub fn is_name(word: &[u8]) -> bool
    ensures { result ≡ is_name word.now }
{
    word.len() > 0
        && word.len() <= MAX_NAME
        && is_letter(word[0])
        && are_name_bytes(word)
        && !is_register(word)
}

// Whether each byte is a letter, a digit or `_`.
fn are_name_bytes(word: &[u8]) -> bool
    ensures { result ≡ list_all is_name_byte word.now }
{
    word.iter().all(|b| is_name_byte(*b))
}

// Whether the byte is a letter or `_`.
fn is_letter(byte: u8) -> bool
    ensures { result ≡ is_letter byte }
{
    (b'a' <= byte && byte <= b'z') || (b'A' <= byte && byte <= b'Z') || byte == b'_'
}

// Whether the byte is a letter, a digit or `_`.
fn is_name_byte(byte: u8) -> bool
    ensures { result ≡ is_name_byte byte }
{
    is_letter(byte) || (b'0' <= byte && byte <= b'9')
}

// Whether the word is one of `r0` to `r7`.
fn is_register(word: &[u8]) -> bool
    ensures { result ≡ is_register word.now }
{
    word.len() == 2 && word[0] == b'r' && b'0' <= word[1] && word[1] <= b'7'
}

/// The register of the word, `r0` to `r7`.
pub fn register_of(word: &[u8]) -> Option<Reg>
    ensures some { IsSome result ↔ IsTrue (is_register word.now) }
    ensures number { IfSome result (λ reg. reg_number reg ≡ slice_index word.now 1 - 48) }
{
    if !is_register(word) {
        return None;
    }
    Reg::new(word[1] - b'0')
}
