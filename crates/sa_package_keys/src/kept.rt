// How much of a list stands before the end that has one value alone.
ghost use Rattle.std.specs.Prelude.{◌≡◌, ◌≤◌, not, is_none, length, take};
ghost use Rattle.sa_package_keys.specs.Codes.{trimmed};

use sa_base::ThreadNo;

/// How many flags there are up to the last that is set.
pub fn kept_flags(flags: &[bool]) -> usize
    ensures within { result ≤ length flags.now }
    ensures kept { trimmed not flags.now ≡ take result flags.now }
{
    for i in (0..flags.len()).rev() {
        if flags[i] {
            return i + 1;
        }
    }
    0
}

/// How many places there are up to the last at which there is a thread.
pub fn kept_threads(threads: &[Option<ThreadNo>]) -> usize
    ensures within { result ≤ length threads.now }
    ensures kept { trimmed is_none threads.now ≡ take result threads.now }
{
    for i in (0..threads.len()).rev() {
        if threads[i].is_some() {
            return i + 1;
        }
    }
    0
}
