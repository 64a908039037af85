use day::{FutureOrder, Mark, OptionOrder};
use listings::futures::FuturesMonth;
use listings::series::OptionSeries;

/// What one call hands to a day.
#[derive(Clone, Copy, Debug, PartialEq, Eq)]
pub struct Call<'a> {
    pub time: u32,
    pub action: Action<'a>,
}

/// What a call asks. An order lends the listings that it is shown.
#[derive(Clone, Copy, Debug, PartialEq, Eq)]
pub enum Action<'a> {
    Mark(Mark),
    Tick,
    Look,
    Future {
        order: FutureOrder,
        months: &'a [FuturesMonth],
    },
    // Kept: only an option order is shown both rows, and it looks in each apart, so a struct of both would be taken apart.
    Option {
        order: OptionOrder,
        series: &'a [OptionSeries],
        months: &'a [FuturesMonth],
    },
}
