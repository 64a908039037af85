use limits::Bounds;
use watches::Side;

/// What a look shows of a day: ends are times, and none where nothing runs.
// Kept: a state has its ends in the enums that the project prescribes, and a view shows them as times or none.
#[derive(Clone, Copy, Debug, PartialEq, Eq)]
pub struct View {
    pub bounds: Bounds,
    pub lower_level: u8,
    pub upper_level: u8,
    pub standing: Option<Side>,
    pub lower_watch: Option<u32>,
    pub upper_watch: Option<u32>,
    pub halt: Option<u32>,
}
