// The words of a line.
ghost use Rattle.std.specs.Prelude.{◌≡◌, ◌++◌, ◌<◌, ◌^◌, IfOk, OnOk, slice_range};
ghost use Rattle.toga_lines.specs.Words.{is_blank, joined, places_of, with_byte, word_at};

use std::alloc::{AllocError, Global};

/// Where a word is: its bytes are `content[from..to]`.
#[derive(Clone, Copy)]
pub struct Place {
    /// The number of its first byte, from 0.
    pub from: usize,
    /// The number of the byte after its last.
    pub to: usize,
}

/// Where the words are: the longest pieces without spaces and tabs.
pub fn places_of(alloc: Global, content: &[u8]) -> Result<Vec<Place>, AllocError>
    ensures { IfOk result (λ places. places.items ≡ places_of content.now) }
{
    let mut places = Vec::new(alloc);
    for (number, byte) in content.iter().enumerate() {
        push_byte(&mut places, number, *byte)?;
    }
    Ok(places)
}

// Makes the last word longer, or begins another, where the byte is no blank.
fn push_byte(places: &mut Vec<Place>, number: usize, byte: u8) -> Result<(), AllocError>
    requires { number < 2 ^ 63 }
    ensures { OnOk result (places.new.items ≡ with_byte places.old.items number byte) }
{
    if is_blank(byte) {
        return Ok(());
    }
    let last = places.last().copied();
    places.truncate(places.len().saturating_sub(1));
    push_joined(places, last, number)
}

// Appends the last word, made longer by the byte of this number, or that word and one of the byte alone.
fn push_joined(
    places: &mut Vec<Place>,
    last: Option<Place>,
    number: usize,
) -> Result<(), AllocError>
    requires { number < 2 ^ 63 }
    ensures { OnOk result (places.new.items ≡ places.old.items ++ joined last number) }
{
    let mut place = Place {
        from: number,
        to: number + 1,
    };
    if let Some(last) = last {
        if last.to == number {
            place.from = last.from;
        } else {
            places.push(last)?;
        }
    }
    places.push(place)?;
    Ok(())
}

// Whether the byte is a space or a tab.
fn is_blank(byte: u8) -> bool
    ensures { result ≡ is_blank byte }
{
    byte == b' ' || byte == b'\t'
}

/// The bytes of a word; none where the place is outside of the content.
pub fn word_at<'a>(content: &'a [u8], place: &Place) -> &'a [u8]
    ensures { result.now ≡ word_at content.now place.now }
{
    if place.from <= place.to && place.to <= content.len() {
        return &content[place.from..place.to];
    }
    &[]
}
