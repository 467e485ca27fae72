// The longest inputs that are read.
ghost use Rattle.std.specs.Prelude.{◌≡◌};

/// The longest workload text, in bytes.
pub const WORKLOAD_LIMIT: usize = 1_048_576;

/// The longest input with a trace text, alone or after a workload text, in bytes.
pub const TRACE_LIMIT: usize = 134_217_728;

/// The longest input of a workload text and a script, in bytes.
pub const SCRIPT_LIMIT: usize = 2_097_152;

/// The limits of inputs, by number. It does nothing.
pub fn input_limits_are_these()
    ensures workload { WORKLOAD_LIMIT ≡ 1048576 }
    ensures trace { TRACE_LIMIT ≡ 134217728 }
    ensures script { SCRIPT_LIMIT ≡ 2097152 }
{}
