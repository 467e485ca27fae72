// The line with which some bytes begin.
ghost use Rattle.std.specs.Prelude.{◌≡◌, ◌<◌, ◌≤◌, length, IfOk};
ghost use Rattle.sa_lines_in.specs.Line.{line_len};

use sa_base::Cause;

/// The most bytes of a line, without its line feed.
pub const LINE_LIMIT: usize = 32;

// How many bytes of a line come before its line feed, or the first thing that is wrong with it.
pub(crate) fn line_len(bytes: &[u8]) -> Result<usize, Cause>
    ensures len { result ≡ line_len bytes.now }
    ensures within { IfOk result (λ n. n < length bytes.now) }
    ensures short { IfOk result (λ n. n ≤ LINE_LIMIT) }
{
    for (i, byte) in bytes.iter().enumerate() {
        if *byte == b'\n' {
            return Ok(i);
        }
        if i == LINE_LIMIT {
            return Err(Cause::TooMany);
        }
        if *byte < 32 || *byte > 126 {
            return Err(Cause::NotAscii);
        }
    }
    Err(Cause::Missing)
}
