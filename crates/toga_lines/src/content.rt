// What of a line is said.
ghost use Rattle.std.specs.Prelude.{◌≡◌, ◌==◌, not, position};
ghost use Rattle.std.specs.List.{before_first};
ghost use Rattle.toga_lines.specs.Content.{content_of, is_plain, without_return};

/// A line without the carriage return at its end, if it has one, and without its comment.
pub fn content_of(line: &[u8]) -> &[u8]
    ensures { result.now ≡ content_of line.now }
{
    before_comment(without_return(line))
}

// A line without the carriage return at its end.
fn without_return(line: &[u8]) -> &[u8]
    ensures { result.now ≡ without_return line.now }
{
    match line.last() {
        Some(b'\r') => &line[..line.len() - 1],
        _ => line,
    }
}

// What is before the first `#`, or all where there is none.
fn before_comment(line: &[u8]) -> &[u8]
    ensures { result.now ≡ before_first (λ b. b == 35) line.now }
{
    match comment_start(line) {
        Some(end) => &line[..end],
        None => line,
    }
}

// The number of the first `#`, from 0.
fn comment_start(line: &[u8]) -> Option<usize>
    ensures { result ≡ position (λ b. b == 35) line.now }
{
    line.iter().position(|b| *b == b'#')
}

/// The number of the first byte, from 0, that is neither a printed ASCII character nor a tab.
pub fn first_unprinted(content: &[u8]) -> Option<usize>
    ensures { result ≡ position (λ b. not (is_plain b)) content.now }
{
    content.iter().position(|b| !is_plain(*b))
}

// Whether the byte is a printed ASCII character or a tab.
fn is_plain(byte: u8) -> bool
    ensures { result ≡ is_plain byte }
{
    byte == b'\t' || (b' ' <= byte && byte <= b'~')
}
