// The window: the events that are drawn.
ghost use Rattle.std.specs.Prelude.{◌≡◌, ◌≤◌, ◌<◌};
ghost use Rattle.sa_shapes.specs.Window.{place, is_inside, window_to};

/// The most events of a picture.
pub const MAX_COUNT: u16 = 10_000;

/// The limit of a window, by number. It does nothing.
pub fn window_limits_are_these()
    ensures { MAX_COUNT ≡ 10000 }
{}

/// The events that are drawn: `count` of them, from `from` on.
#[derive(Clone, Copy)]
pub struct Window {
    pub from: u64,
    pub count: u16,
}

impl Window {
    /// The window from one event to another, or of the one event where the other is before it. `None` where it has more
    /// events than a picture may have.
    pub fn to(from: u64, to: u64) -> Option<Window>
        ensures { result ≡ window_to from to }
    {
        let apart = to.saturating_sub(from);
        if apart < u64::from(MAX_COUNT) {
            Some(Window {
                from,
                count: apart as u16 + 1,
            })
        } else {
            None
        }
    }

    /// The place of an event, counted from the first that is drawn: 0 for those before, `count` for those after.
    pub fn place(self, event: u64) -> u16
        ensures place { result ≡ place self event }
        ensures within { result ≤ self.count }
    {
        event.saturating_sub(self.from).min(u64::from(self.count)) as u16
    }

    /// Whether the event is drawn.
    pub fn is_inside(self, event: u64) -> bool
        ensures { result ≡ is_inside self event }
    {
        self.from <= event && event - self.from < u64::from(self.count)
    }
}
