// The one decimal spelling of a number of 64 bits: written and read.
ghost use Rattle.std.specs.Prelude.{◌≡◌, ◌≢◌, ℕ, ◌+◌, ◌-◌, ◌*◌, ◌^◌, ◌<◌, ◌≤◌, ◌++◌, Some, IfSome, IfNone, IsTrue, ◌↔◌, OnErr, OnOk, decimal};
ghost use Rattle.std.specs.Option.{SomeIff};
ghost use Rattle.sa_text.specs.Number.{BeginsNumber, ReadsDigits, number_of};

use itoa::Buffer;
use std::alloc::AllocError;

/// Appends `n` in decimal: ASCII digits, with no sign and no leading zero, so `0` alone is 0.
///
/// Fails only where memory runs out, and then `out` holds what it held.
#[tactic(auto, using(std::proofs::lemmas::Fmt::decimal_digit, itoa::proofs::Decimal::decimal_two))]
pub fn print_number(n: u64, out: &mut Vec<u8>) -> Result<(), AllocError>
    ensures ok { OnOk result (out.new.items ≡ out.old.items ++ decimal n) }
    ensures err { OnErr result (out.new.items ≡ out.old.items) }
{
    if n < 10 {
        return out.extend_from_slice(&[b'0' + n as u8]);
    }
    if n < 100 {
        return out.extend_from_slice(&[b'0' + (n / 10) as u8, b'0' + (n % 10) as u8]);
    }
    print_long(n, out)
}

// The same for any number. Out of line, so that a short one does not pay for the buffer.
#[inline(never)]
fn print_long(n: u64, out: &mut Vec<u8>) -> Result<(), AllocError>
    ensures ok { OnOk result (out.new.items ≡ out.old.items ++ decimal n) }
    ensures err { OnErr result (out.new.items ≡ out.old.items) }
{
    let mut buffer = Buffer::new();
    out.extend_from_slice(buffer.format(n).as_bytes())
}

/// The number of which `piece` is the one decimal spelling.
///
/// `None` exactly where it is none of a number below 2^64: it is empty, has a sign, another byte than a
/// digit or a leading zero, or the number is too large.
pub fn read_number(piece: &[u8]) -> Option<u64>
    ensures number { result ≡ number_of piece.now }
    ensures some { IfSome result (λ n. piece.now ≡ decimal n) }
    ensures none { IfNone result ((n : ℕ) → n < 2 ^ 64 → piece.now ≢ decimal n) }

    // What `print_number` appends is read as the number that was printed.
    ensures printed { (n : ℕ) → n < 2 ^ 64 → piece.now ≡ decimal n → result ≡ Some n }
{
    if !begins_number(piece) {
        return None;
    }
    parse_digits(piece)
}

// Whether the first byte is a digit, and `0` only where it is alone.
fn begins_number(piece: &[u8]) -> bool
    ensures { IsTrue result ↔ BeginsNumber piece.now }
{
    matches!(piece, [b'0'] | [b'1'..=b'9', ..])
}

// The number that the digits write, which may be too large for 64 bits.
fn parse_digits(piece: &[u8]) -> Option<u64>
    requires { BeginsNumber piece.now }
    ensures { ReadsDigits piece.now result }
{
    let mut n = 0;
    for digit in piece {
        n = with_digit(n, *digit)?;
    }
    Some(n)
}

// The number that the digits of `n` and this one write, which may be none or too large for 64 bits.
fn with_digit(n: u64, digit: u8) -> Option<u64>
    ensures { SomeIff result ((48 ≤ digit) × (digit ≤ 57) × (n * 10 + digit < 2 ^ 64 + 48)) (n * 10 + digit - 48) }
{
    if digit < b'0' || digit > b'9' {
        return None;
    }
    n.checked_mul(10)?.checked_add(u64::from(digit - b'0'))
}
