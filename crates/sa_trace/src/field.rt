// The fields of records.
ghost use Rattle.std.specs.Prelude.{◌≡◌};
ghost use Rattle.sa_trace.specs.Field.{range_of};

/// What a field of a record is. An `Optional` one may be absent, which the trace text writes as `-`.
#[derive(Clone, Copy)]
pub enum Field {
    /// A space.
    Space,
    /// A space, or none.
    OptionalSpace,
    /// A thread of the record's space.
    Thread,
    /// A thread of the record's space, or none.
    OptionalThread,
    /// A processor, or the ready list of one.
    Processor,
    /// An activation.
    Activation,
    /// An I/O or a page fetch.
    Io,
    /// A place of a program.
    Place,
    /// What a register holds.
    Value,
    /// A number of processors.
    Demand,
}

/// What a field may hold.
#[derive(Clone, Copy)]
pub struct FieldRange {
    /// The greatest number; the least is 0.
    pub greatest: u64,
    /// The number may be absent.
    pub optional: bool,
}

impl Field {
    /// What such a field may hold.
    pub fn range(self) -> FieldRange
        ensures { result ≡ range_of self }
    {
        match self {
            Field::Space | Field::Thread | Field::Processor | Field::Place | Field::Demand => {
                FieldRange {
                    greatest: u16::MAX as u64,
                    optional: false,
                }
            }
            Field::OptionalSpace | Field::OptionalThread => FieldRange {
                greatest: u16::MAX as u64,
                optional: true,
            },
            Field::Io => FieldRange {
                greatest: u32::MAX as u64,
                optional: false,
            },
            Field::Activation | Field::Value => FieldRange {
                greatest: u64::MAX,
                optional: false,
            },
        }
    }
}
