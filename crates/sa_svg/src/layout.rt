// Where things are.
ghost use Rattle.std.specs.Prelude.{◌≡◌, ◌*◌, ◌≤◌};
ghost use Rattle.sa_svg.specs.Layout.{unit_of, per_of, layout_of, band_of, bands, pieces, piece_from, piece_to, x_of, span_of, lane_height, band_height, band_top, tracks_top, tracks_height, lane_top, bar_y, mark_y, space_base, steps, width_of, height_of, has_room, tick_step};

use sa_shapes::{Picture, Stretch};

/// The least and the greatest width that may be asked for, in pixels, and the width where none is: that of the column in which
/// a page of this repository is read.
pub const MIN_WIDTH: u64 = 200;

pub const MAX_WIDTH: u64 = 1_000_000;

pub const DEFAULT_WIDTH: u64 = 838;

/// The widths, by number. It does nothing.
pub fn widths_are_these()
    ensures least { MIN_WIDTH ≡ 200 }
    ensures greatest { MAX_WIDTH ≡ 1000000 }
    ensures default { DEFAULT_WIDTH ≡ 838 }
{}

// The space to the left of the first event and to the right of the last one, in pixels.
pub(crate) const SIDE: u64 = 92;

pub(crate) const MARGIN: u64 = 16;
// The least width, which the legend needs.
pub(crate) const LEGEND_WIDTH: u64 = 830;
// The most pixels of an event, how many it needs for strokes to be drawn, and into how many bands a picture is folded at most
// before its events become narrower.
pub(crate) const MAX_UNIT: u64 = 29;

pub(crate) const UNIT_OF_STROKES: u16 = 5;

pub(crate) const MAX_BANDS: u64 = 12;
// How many pixels are above the bands, above the tracks of a band and below them, and how many a space and a lane have.
pub(crate) const TOP: u64 = 118;

pub(crate) const AXIS: u64 = 20;

pub(crate) const BAND_GAP: u64 = 12;

pub(crate) const SPACE_HEIGHT: u16 = 50;

pub(crate) const STEPS_HEIGHT: u16 = 36;

pub(crate) const BAR_HEIGHT: u64 = 20;

pub(crate) const MARK_HEIGHT: u16 = 13;

pub(crate) const LANE_GAP: u16 = 32;

/// The measures of a picture. Its events are folded into bands, one below another.
#[derive(Clone, Copy)]
pub struct Layout {
    /// How many pixels an event is wide, and how many events are beside each other in a band, each at least 1.
    pub unit: u16,
    pub per: u16,
    /// How many events, lanes, spaces and rows of marks there are.
    pub count: u16,
    pub lanes: u16,
    pub spaces: u16,
    pub depth: u16,
}

// The product, which fits.
pub(crate) fn times(a: u16, b: u16) -> u64
    ensures product { result ≡ a * b }
    ensures small { result ≤ 4_294_967_296 }
{
    u64::from(a) * u64::from(b)
}

impl Layout {
    /// The measures of a picture that is to be this wide.
    pub fn of(picture: &Picture, width: u64) -> Layout
        ensures { result ≡ layout_of picture.now width }
    {
        let unit = unit_of(width, picture.window.count);
        Layout {
            unit,
            per: per_of(width, unit, picture.window.count),
            count: picture.window.count,
            lanes: picture.lanes,
            spaces: picture.spaces,
            depth: picture.depth,
        }
    }

    // The band of the event at a place, and how many bands there are.
    pub(crate) fn band(self, at: u16) -> u16
        ensures { result ≡ band_of self at }
    {
        at / self.per.max(1)
    }

    pub(crate) fn bands(self) -> u16
        ensures { result ≡ bands self }
    {
        if self.count == 0 {
            0
        } else {
            self.band(self.count - 1).saturating_add(1)
        }
    }

    // How many bands a stretch is in, and its first place in this band and the place after its last one there.
    pub(crate) fn pieces(self, stretch: &Stretch) -> u16
        ensures { result ≡ pieces self stretch.now }
    {
        if stretch.from >= stretch.to {
            return 0;
        }
        let last = self.band(stretch.to - 1);
        last.saturating_sub(self.band(stretch.from))
            .saturating_add(1)
    }

    pub(crate) fn piece_from(self, stretch: &Stretch, band: u16) -> u16
        ensures { result ≡ piece_from self stretch.now band }
    {
        let first = times(band, self.per);
        u64::from(stretch.from)
            .max(first)
            .min(u64::from(stretch.to)) as u16
    }

    pub(crate) fn piece_to(self, to: u16, band: u16) -> u16
        ensures { result ≡ piece_to self to band }
    {
        let next = times(band, self.per) + u64::from(self.per);
        if next < u64::from(to) {
            next as u16
        } else {
            to
        }
    }

    // The left side of the event at a place, and how wide a stretch of events is.
    pub(crate) fn x(self, at: u16) -> u64
        ensures x { result ≡ x_of self at }
        ensures small { result ≤ 4_294_968_000 }
    {
        SIDE + times(at % self.per.max(1), self.unit)
    }

    pub(crate) fn span(self, from: u16, to: u16) -> u64
        ensures { result ≡ span_of self from to }
    {
        times(to.saturating_sub(from), self.unit)
    }

    // How high a lane is, and a band with all its spaces and lanes.
    fn lane_height(self) -> u64
        ensures height { result ≡ lane_height self }
        ensures small { result ≤ 1_000_000 }
    {
        times(self.depth, MARK_HEIGHT) + u64::from(LANE_GAP)
    }

    fn band_height(self) -> u64
        ensures height { result ≡ band_height self }
        ensures small { result ≤ 100_000_000_000 }
    {
        AXIS + times(self.spaces, SPACE_HEIGHT)
            + u64::from(self.lanes) * self.lane_height()
            + BAND_GAP
    }

    // Where a band begins, and where its tracks do.
    pub(crate) fn band_top(self, band: u16) -> u64
        ensures top { result ≡ band_top self band }
        ensures small { result ≤ 8_000_000_000_000_000 }
    {
        TOP + u64::from(band) * self.band_height()
    }

    pub(crate) fn tracks_top(self, band: u16) -> u64
        ensures top { result ≡ tracks_top self band }
        ensures small { result ≤ 8_100_000_000_000_000 }
    {
        self.band_top(band) + AXIS
    }

    // How high the tracks of a band are.
    pub(crate) fn tracks_height(self) -> u64
        ensures { result ≡ tracks_height self }
    {
        self.band_height().saturating_sub(AXIS + BAND_GAP)
    }

    // The line on which the steps of a space are, and how high that many processors are.
    pub(crate) fn space_base(self, band: u16, s: u16) -> u64
        ensures base { result ≡ space_base self band s }
        ensures small { result ≤ 8_200_000_000_000_000 }
    {
        self.tracks_top(band) + times(s, SPACE_HEIGHT) + 46
    }

    pub(crate) fn steps(self, n: u16) -> u64
        ensures { result ≡ steps self n }
    {
        let most = u32::from(self.lanes) + 1;
        u64::from(u32::from(STEPS_HEIGHT) / most * u32::from(n).min(most))
    }

    // Where a lane begins, and where its bar and its marks are.
    fn lane_top(self, band: u16, p: u16) -> u64
        ensures top { result ≡ lane_top self band p }
        ensures small { result ≤ 8_300_000_000_000_000 }
    {
        self.tracks_top(band) + times(self.spaces, SPACE_HEIGHT) + u64::from(p) * self.lane_height()
    }

    pub(crate) fn bar_y(self, band: u16, p: u16) -> u64
        ensures y { result ≡ bar_y self band p }
        ensures small { result ≤ 8_400_000_000_000_000 }
    {
        self.lane_top(band, p) + times(self.depth, MARK_HEIGHT) + 6
    }

    pub(crate) fn mark_y(self, band: u16, p: u16, row: u16) -> u64
        ensures y { result ≡ mark_y self band p row }
        ensures small { result ≤ 8_400_000_000_000_000 }
    {
        self.bar_y(band, p)
            .saturating_sub(times(row, MARK_HEIGHT))
            .saturating_sub(u64::from(MARK_HEIGHT))
    }

    // How wide and how high the picture is.
    pub(crate) fn width(self) -> u64
        ensures { result ≡ width_of self }
    {
        LEGEND_WIDTH.max(SIDE + times(self.count.min(self.per), self.unit) + MARGIN)
    }

    pub(crate) fn height(self) -> u64
        ensures { result ≡ height_of self }
    {
        self.band_top(self.bands())
    }
}

// A word of so many letters has room in a shape that is so wide.
pub(crate) fn has_room(width: u64, word: &[u8]) -> bool
    ensures { result ≡ has_room width word.now }
{
    word.len() as u64 <= width.saturating_sub(2) / 5
}

// After how many events of this width the axis has another number.
pub(crate) fn tick_step(unit: u16) -> u16
    ensures step { result ≡ tick_step unit }
    ensures some { 1 ≤ result }
{
    if unit >= 10 {
        5
    } else if unit >= 5 {
        10
    } else if unit >= 2 {
        25
    } else {
        100
    }
}

// How many pixels an event is wide, such that this number of events fits into the bands if it can.
fn unit_of(width: u64, count: u16) -> u16
    ensures { result ≡ unit_of width count }
{
    let room = width.saturating_sub(SIDE + MARGIN);
    let per = (u64::from(count) + (MAX_BANDS - 1)) / MAX_BANDS;
    (room / per.max(1)).clamp(1, MAX_UNIT) as u16
}

// How many events are beside each other: all where there is room, else as many as have room, up to a multiple of the axis's steps.
fn per_of(width: u64, unit: u16, count: u16) -> u16
    ensures { result ≡ per_of width unit count }
{
    let fit = width.saturating_sub(SIDE + MARGIN) / u64::from(unit.max(1));
    let step = u64::from(tick_step(unit));
    if fit >= u64::from(count) {
        count.max(1)
    } else if fit < step {
        fit.max(1) as u16
    } else {
        (fit - fit % step) as u16
    }
}
