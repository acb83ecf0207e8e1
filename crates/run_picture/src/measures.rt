//! Lengths of the picture, in pixels.

/// The margin of the page.
pub(crate) const MARGIN: u64 = 16;
/// From one line of words to the next.
pub(crate) const LINE: u64 = 18;
/// How far letters reach above the line that they stand on.
pub(crate) const ASCENT: u64 = 12;
/// How far they reach below it.
pub(crate) const DESCENT: u64 = 4;
/// Where the boxes with the names of nodes begin.
pub(crate) const NAMES: u64 = 116;
/// The height of such a box.
pub(crate) const NAME_HEIGHT: u64 = 42;
/// The width of such a box.
pub(crate) const NAME_WIDTH: u64 = 84;
/// Between the boxes and the first row.
pub(crate) const FIRST_ROW: u64 = 170;
/// Half the width of the bar of a node that does something.
pub(crate) const BAR: u64 = 5;
/// From the top of a row to the line on which its arrow ends.
pub(crate) const ROW_TOP: u64 = 14;
/// From that line to the next row, where nothing is sent.
pub(crate) const ROW_REST: u64 = 20;
/// The same of a refused event.
pub(crate) const SLIM_REST: u64 = 12;
/// The least width between two lifelines.
pub(crate) const LEAST_GAP: u64 = 104;
/// The height of the band that stands for events that are not drawn.
pub(crate) const BAND: u64 = 48;

/// The width of this many characters of the one font: 8.5 pixels each, a little more than they take.
pub(crate) fn width_of(characters: usize) -> u64 {
    (characters as u64).saturating_mul(17) / 2 + 1
}

/// A place some pixels further on.
pub(crate) fn on(place: u64, by: u64) -> u64 {
    place.saturating_add(by)
}

/// A place some pixels back.
pub(crate) fn back(place: u64, by: u64) -> u64 {
    place.saturating_sub(by)
}
