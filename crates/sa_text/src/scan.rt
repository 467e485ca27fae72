// The search that lines and pieces share.
ghost use Rattle.std.specs.Prelude.{◌≡◌, ◌≢◌, ◌<◌, ◌≤◌, length, slice_index, take, All};

/// How many bytes are before the first that is `stop`: all of them where none is.
pub(crate) fn length_before(bytes: &[u8], stop: u8) -> usize
    ensures within { result ≤ length bytes.now }
    ensures before { All (λ b. b ≢ stop) (take result bytes.now) }
    ensures stopped { result < length bytes.now → slice_index bytes.now result ≡ stop }
{
    for (i, byte) in bytes.iter().enumerate() {
        if *byte == stop {
            return i;
        }
    }
    bytes.len()
}
