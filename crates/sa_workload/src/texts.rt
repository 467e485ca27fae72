// An input of two texts: a workload text up to its first line that is `close`, and directly after it another text.
ghost use Rattle.std.specs.Prelude.{◌≡◌, ◌≤◌, length, codes};
ghost use Rattle.std.specs.Str.{bytes_eq};
ghost use Rattle.sa_workload.specs.Texts.{workload_part, second_part};

/// The two texts of an input: the bytes through the first line that is `close`, and those behind it. Where no line is
/// `close`, the first text is the whole input.
pub fn two_texts(input: &[u8]) -> (&[u8], &[u8])
    ensures first { result.0.now ≡ workload_part input.now }
    ensures second { result.1.now ≡ second_part input.now }
{
    input.split_at(workload_len(input))
}

// How long the first text is.
fn workload_len(input: &[u8]) -> usize
    ensures len { result ≡ length (workload_part input.now) }
    ensures within { result ≤ length input.now }
{
    let mut start = 0;
    for (i, byte) in input.iter().enumerate() {
        if *byte == b'\n' {
            if is_close(&input[start..i]) {
                return i + 1;
            }
            start = i + 1;
        }
    }
    input.len()
}

// The line is `close`.
fn is_close(line: &[u8]) -> bool
    ensures { result ≡ bytes_eq line.now (codes "close") }
{
    line == b"close".as_slice()
}
