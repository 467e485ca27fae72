ghost use Rattle.std.specs.Prelude.{◌≡◌};

/// How many virtual processors there can be: one for each space and processor.
pub const VIRTUALS: u32 = 256;

/// The limit of virtual processors, by number. It does nothing.
pub fn virtual_limits_are_these()
    ensures { VIRTUALS ≡ 256 }
{}
