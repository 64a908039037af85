// The listings of the day: a roster of futures months and one of option series.
use super::calls::{Change, Listed};
use super::kept_calls::{Listings, Snapshot};
use super::line::{Line, NoAnswer};
use super::session::Session;
use listings::code::MonthCode;
use listings::futures::FuturesMonth;
use listings::series::{OptionContract, OptionSeries, Right};
use roster::fault::RosterFault;
use roster::held::Roster;
use roster::listing::Listing;
use std::alloc::{AllocError, Global};
use std::io::Write;
use std::rc::Rc;

// A roster never uses more.
pub const MOST_PLACES: u32 = 4096;

// No month's code: it fills a free place, and stands for a word that writes no code.
pub const NO_CODE: MonthCode = MonthCode {
    letter: ' ',
    year: 0,
};

const NO_CONTRACT: OptionContract = OptionContract {
    code: NO_CODE,
    strike: 0,
    right: Right::Call,
};

// Places for listings, and how many of them are taken.
// Kept: the library's roster has no heap, so it is lent places and takes up its count at each call.
#[derive(Drop)]
struct Kept<L> {
    places: Vec<L>,
    len: usize,
    // The entries as they stand, once an order was shown them.
    shown: Option<Rc<Vec<L>>>,
    // No entries, once an order was shown that: one copy serves whenever there are none.
    shown_none: Option<Rc<Vec<L>>>,
}

impl<L: Listing + Drop> Kept<L> {
    fn new(places: Vec<L>) -> Kept<L> {
        Kept {
            places,
            len: 0,
            shown: None,
            shown_none: None,
        }
    }

    // How many stand then.
    fn change(&mut self, change: Change, listing: L) -> Result<usize, RosterFault> {
        let mut roster = Roster::resume(&mut self.places, self.len);
        match change {
            Change::Enter => roster.list(listing)?,
            Change::Remove => roster.delist(&listing)?,
        }
        let len = roster.len();
        self.len = len;
        self.shown = None;
        Ok(len)
    }

    // Where the copy of the entries is kept.
    fn slot(&mut self) -> &mut Option<Rc<Vec<L>>> {
        if self.len == 0 {
            &mut self.shown_none
        } else {
            &mut self.shown
        }
    }

    fn shown(&mut self, heap: Global) -> Result<Rc<Vec<L>>, AllocError> {
        let shown = match self.slot().take() {
            Some(shown) => shown,
            None => Rc::new(heap, self.entries().to_vec(heap)?)?,
        };
        *self.slot() = Some(shown.clone()?);
        Ok(shown)
    }

    fn entries(&self) -> &[L] {
        let places = self.places.as_slice();
        &places[0..self.len.min(places.len())]
    }
}

#[derive(Drop)]
pub struct Rosters {
    months: Kept<FuturesMonth>,
    series: Kept<OptionSeries>,
}

impl Rosters {
    pub fn new(heap: Global, months: u32, series: u32) -> Result<Rosters, AllocError> {
        let month = FuturesMonth::from(NO_CODE);
        let one_series = OptionSeries::from(NO_CONTRACT);
        Ok(Rosters {
            months: Kept::new(vec![in heap; month; months as usize]?),
            series: Kept::new(vec![in heap; one_series; series as usize]?),
        })
    }

    // Fresh, empty rosters in place of these, shown by the same copy while they are empty.
    fn lay_out(&mut self, heap: Global, months: u32, series: u32) -> Result<(), AllocError> {
        let mut laid = Rosters::new(heap, months, series)?;
        laid.months.shown_none = self.months.shown_none.take();
        laid.series.shown_none = self.series.shown_none.take();
        *self = laid;
        Ok(())
    }

    pub(super) fn listings(&self) -> Listings<'_> {
        Listings {
            months: self.months.entries(),
            series: self.series.entries(),
        }
    }

    pub(super) fn snapshot(&mut self, heap: Global) -> Result<Snapshot, AllocError> {
        Ok(Snapshot {
            months: self.months.shown(heap)?,
            series: self.series.shown(heap)?,
        })
    }

    fn change(&mut self, change: Change, listed: Listed) -> Result<usize, RosterFault> {
        match listed {
            Listed::Month(month) => self.months.change(change, month),
            Listed::Series(series) => self.series.change(change, series),
        }
    }
}

impl Session {
    pub(super) fn change_listings<W: Write>(
        &mut self,
        line: &mut Line<'_, W>,
        change: Change,
        listed: Listed,
    ) -> Result<(), NoAnswer> {
        let len = self.rosters.change(change, listed)?;
        Ok(line.tell(format_args!("{change} {len}"))?)
    }

    // Fresh, empty rosters with at most as many places as a roster uses.
    pub(super) fn lay_out<W: Write>(
        &mut self,
        line: &mut Line<'_, W>,
        months: u32,
        series: u32,
    ) -> Result<(), NoAnswer> {
        let months = months.min(MOST_PLACES);
        let series = series.min(MOST_PLACES);
        self.rosters.lay_out(self.heap, months, series)?;
        Ok(line.tell(format_args!("places {months} {series}"))?)
    }
}
