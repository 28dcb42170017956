// The measures of a picture, in its units.
use crate::recording::Recording;

/// Room round everything.
pub const MARGIN: u32 = 16;
/// The height of a row.
pub const ROW: u32 = 22;
/// The height of a bar.
pub const BAR: u32 = 14;
/// How far below its row's top a text stands.
pub const BASELINE: u32 = 15;
/// The height of the title and the legend.
pub const TOP: u32 = 80;
/// The height of the events' numbers.
pub const NUMBERS: u32 = 24;
/// The width of a slot.
const SLOT: u32 = 12;
/// How much further in a node stands than the one round it.
const INDENT: u32 = 12;
/// The width of a letter, somewhat more than it takes.
const LETTER: u32 = 8;
/// The width of a letter of another script.
const WIDE_LETTER: u32 = 14;
/// The longest outcome and failure, at the right: `INTERRUPTED INVARIANT_CONDITION_FAILED`.
const ENDS: u32 = 330;
/// The width that the legend needs.
const LEGEND_WIDTH: u32 = 1_150;
/// After how many rows the events' numbers stand again, in a row of their own.
pub const NUMBERS_EVERY: usize = 40;

/// Where things stand.
#[derive(Clone, Copy)]
pub struct Layout {
    /// Where the bars begin.
    pub left: u32,
    /// Where they end.
    pub right: u32,
    /// Where the rows begin.
    pub top: u32,
    pub width: u32,
    pub height: u32,
}

/// The width of a text.
pub fn text_width(text: &str) -> u32 {
    let mut width: u32 = 0;
    for c in text.chars() {
        let letter = if c.is_ascii() { LETTER } else { WIDE_LETTER };
        width = width.saturating_add(letter);
    }
    width
}

/// How far in a node's name stands.
pub fn indent(depth: usize) -> u32 {
    as_units(depth)
        .saturating_mul(INDENT)
        .saturating_add(MARGIN)
}

fn as_units(count: usize) -> u32 {
    u32::try_from(count).unwrap_or(u32::MAX)
}

/// How many slots hold this width.
pub fn slots_of(width: u32) -> u32 {
    (width / SLOT).saturating_add(1)
}

impl Layout {
    /// The layout of a recording under a title.
    pub fn of(title: &str, recording: &Recording) -> Layout {
        let left = recording.names.saturating_add(MARGIN);
        let right = left.saturating_add(recording.slot.saturating_mul(SLOT));
        let heads = recording.labels.saturating_add(NUMBERS);
        let top = heads.saturating_add(TOP);
        // The title has larger letters.
        let title = text_width(title).saturating_mul(2);
        let layout = Layout {
            left,
            right,
            top,
            width: right.saturating_add(ENDS).max(LEGEND_WIDTH).max(title),
            height: 0,
        };
        let rows = recording.rows.len();
        Layout {
            height: layout.row(rows).saturating_add(MARGIN),
            ..layout
        }
    }

    /// Where a slot begins.
    pub fn x(&self, slot: u32) -> u32 {
        self.left.saturating_add(slot.saturating_mul(SLOT))
    }

    /// Where a row begins.
    pub fn row(&self, number: usize) -> u32 {
        let before = number.saturating_add(number / NUMBERS_EVERY);
        as_units(before)
            .saturating_mul(ROW)
            .saturating_add(self.top)
    }
}
