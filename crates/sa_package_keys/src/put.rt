// Codes of numbers.
#![tactic(auto, using(std::proofs::Common::append_assoc, crate::proofs::Loops::range_more, crate::proofs::Loops::list_more))]

ghost use Rattle.std.specs.Prelude.{◌≡◌, ◌++◌, OnOk};
ghost use Rattle.sa_package_keys.specs.Codes.{number, flag, list, number_or_none, thread_key, space_no_key};

use sa_base::{SpaceNo, ThreadNo};
use std::alloc::AllocError;

/// Adds the bytes of a number. Fails only where memory runs out.
#[tactic(auto, using(std::proofs::Common::append_assoc), unfolding(crate::specs::Codes::number))]
pub fn put_number(key: &mut Vec<u8>, n: u64) -> Result<(), AllocError>
    ensures { OnOk result (key.new.items ≡ key.old.items ++ number n) }
{
    if n < 254 {
        key.push(n as u8)?;
        return Ok(());
    }
    if n < 1 << 16 {
        key.push(254)?;
        key.extend_from_slice(&(n as u16).to_le_bytes())?;
        return Ok(());
    }
    key.push(255)?;
    key.extend_from_slice(&n.to_le_bytes())?;
    Ok(())
}

/// Adds the byte of a flag. Fails only where memory runs out.
pub fn put_flag(key: &mut Vec<u8>, is: bool) -> Result<(), AllocError>
    ensures { OnOk result (key.new.items ≡ key.old.items ++ flag is) }
{
    key.push(if is { 1 } else { 0 })?;
    Ok(())
}

/// Adds the bytes of a number that may be missing. Fails only where memory runs out.
pub fn put_optional_number(key: &mut Vec<u8>, n: Option<u16>) -> Result<(), AllocError>
    ensures { OnOk result (key.new.items ≡ key.old.items ++ number_or_none n) }
{
    match n {
        None => put_number(key, 0),
        Some(n) => put_number(key, u64::from(n) + 1),
    }
}

/// Adds the bytes of a thread, if there is one. Fails only where memory runs out.
pub fn put_thread(key: &mut Vec<u8>, thread: Option<ThreadNo>) -> Result<(), AllocError>
    ensures { OnOk result (key.new.items ≡ key.old.items ++ thread_key thread) }
{
    match thread {
        None => put_optional_number(key, None),
        Some(t) => put_optional_number(key, Some(t.0)),
    }
}

/// Adds the bytes of a space, if there is one. Fails only where memory runs out.
pub fn put_space(key: &mut Vec<u8>, space: Option<SpaceNo>) -> Result<(), AllocError>
    ensures { OnOk result (key.new.items ≡ key.old.items ++ space_no_key space) }
{
    match space {
        None => put_optional_number(key, None),
        Some(s) => put_optional_number(key, Some(s.0)),
    }
}

/// Adds the bytes of numbers, behind how many they are. Fails only where memory runs out.
#[tactic(auto, using(std::proofs::Common::append_assoc, crate::proofs::Loops::list_more), unfolding(crate::specs::Codes::list))]
pub fn put_numbers(numbers: &[u32], key: &mut Vec<u8>) -> Result<(), AllocError>
    ensures { OnOk result (key.new.items ≡ key.old.items ++ list number numbers.now) }
{
    put_number(key, numbers.len() as u64)?;
    for n in numbers {
        put_number(key, u64::from(*n))?;
    }
    Ok(())
}

/// The same of numbers of 64 bits.
#[tactic(auto, using(std::proofs::Common::append_assoc, crate::proofs::Loops::list_more), unfolding(crate::specs::Codes::list))]
pub fn put_words(words: &[u64], key: &mut Vec<u8>) -> Result<(), AllocError>
    ensures { OnOk result (key.new.items ≡ key.old.items ++ list number words.now) }
{
    put_number(key, words.len() as u64)?;
    for n in words {
        put_number(key, *n)?;
    }
    Ok(())
}

/// The same of flags.
#[tactic(auto, using(std::proofs::Common::append_assoc, crate::proofs::Loops::list_more), unfolding(crate::specs::Codes::list))]
pub fn put_flags(flags: &[bool], key: &mut Vec<u8>) -> Result<(), AllocError>
    ensures { OnOk result (key.new.items ≡ key.old.items ++ list flag flags.now) }
{
    put_number(key, flags.len() as u64)?;
    for is in flags {
        put_flag(key, *is)?;
    }
    Ok(())
}

/// The same of threads, each of which may be missing.
#[tactic(auto, using(std::proofs::Common::append_assoc, crate::proofs::Loops::list_more), unfolding(crate::specs::Codes::list))]
pub fn put_threads(threads: &[Option<ThreadNo>], key: &mut Vec<u8>) -> Result<(), AllocError>
    ensures { OnOk result (key.new.items ≡ key.old.items ++ list thread_key threads.now) }
{
    put_number(key, threads.len() as u64)?;
    for thread in threads {
        put_thread(key, *thread)?;
    }
    Ok(())
}
