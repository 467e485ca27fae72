// Why words that the command takes are no request.
/// An option whose values are not all taken.
#[derive(Clone, Copy)]
pub enum Setting {
    Schedule,
    Package,
    Budget,
    States,
    Give,
    From,
    To,
    Width,
}

/// Why words that the command takes are no request.
#[derive(Clone, Copy)]
pub enum Refusal<'a> {
    /// The option does not take this value.
    Value(Setting, &'a str),
    /// Both inputs are standard input.
    SameInput,
    /// The first event comes after the last one.
    Backward,
}
