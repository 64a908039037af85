// Calls that a day was given, kept with the listings that each was shown.
use super::calls::{Asked, Timed};
use days::{Action, Call};
use listings::futures::FuturesMonth;
use listings::series::OptionSeries;
use std::alloc::{AllocError, Global};
use std::mem::replace;
use std::rc::Rc;

#[derive(Clone, Copy)]
pub struct Listings<'a> {
    pub months: &'a [FuturesMonth],
    pub series: &'a [OptionSeries],
}

// The listings as they stood at some line. Lines between which a roster did not change share its copy.
#[derive(Clone, Drop)]
pub struct Snapshot {
    pub(super) months: Rc<Vec<FuturesMonth>>,
    pub(super) series: Rc<Vec<OptionSeries>>,
}

impl Snapshot {
    fn is(&self, other: &Snapshot) -> bool {
        Rc::ptr_eq(&self.months, &other.months) && Rc::ptr_eq(&self.series, &other.series)
    }

    fn listings(&self) -> Listings<'_> {
        Listings {
            months: self.months.as_slice(),
            series: self.series.as_slice(),
        }
    }
}

impl Asked {
    fn action<'a>(&self, listings: Listings<'a>) -> Action<'a> {
        match *self {
            Asked::Mark(mark) => Action::Mark(mark),
            Asked::Tick => Action::Tick,
            Asked::Look => Action::Look,
            Asked::Future(order) => Action::Future {
                order,
                months: listings.months,
            },
            Asked::Option(order) => Action::Option {
                order,
                series: listings.series,
                months: listings.months,
            },
        }
    }
}

impl Timed {
    pub(super) fn is_order(&self) -> bool {
        matches!(&self.asked, Asked::Future(_) | Asked::Option(_))
    }

    pub(super) fn call<'a>(&self, listings: Listings<'a>) -> Call<'a> {
        Call {
            time: self.time,
            action: self.asked.action(listings),
        }
    }
}

// A call, and the place of the snapshot that it was shown. Only an order looks at it.
#[derive(Clone, Copy)]
struct KeptCall {
    timed: Timed,
    shown: usize,
}

// The fewest calls of a part.
const PART: usize = 64;

// Calls in order, and what the orders among them were shown. Copies share the parts and the listings.
#[derive(Clone, Drop)]
pub struct KeptCalls {
    parts: Vec<Rc<Vec<KeptCall>>>,
    last: Vec<KeptCall>,
    snapshots: Vec<Snapshot>,
}

const NO_LISTINGS: Listings<'static> = Listings {
    months: &[],
    series: &[],
};

impl KeptCalls {
    pub(super) fn new(heap: Global) -> KeptCalls {
        KeptCalls {
            parts: Vec::new(heap),
            last: Vec::new(heap),
            snapshots: Vec::new(heap),
        }
    }

    pub(super) fn len(&self) -> usize {
        self.parts.iter().fold(self.last.len(), |len, part| {
            len.saturating_add(part.len())
        })
    }

    // Keeps a call with what it was shown, if it is an order.
    pub(super) fn push(&mut self, timed: Timed, shown: Option<Snapshot>) -> Result<(), AllocError> {
        if let Some(snapshot) = shown {
            if !self.snapshots.last().is_some_and(|last| last.is(&snapshot)) {
                self.snapshots.push(snapshot)?;
            }
        }
        let shown = self.snapshots.len().saturating_sub(1);
        self.last.push(KeptCall { timed, shown })?;
        Ok(())
    }

    // A copy, which shares the parts. The calls behind the last part are made a part first, unless they are few.
    pub(super) fn copy(&mut self, heap: Global) -> Result<KeptCalls, AllocError> {
        if self.last.len() >= PART {
            let part = replace(&mut self.last, Vec::new(heap));
            self.parts.push(Rc::new(heap, part)?)?;
        }
        self.clone()
    }

    fn call(&self, kept: KeptCall) -> Call<'_> {
        let shown = self.snapshots.get(kept.shown);
        kept.timed
            .call(shown.map_or(NO_LISTINGS, |shown| shown.listings()))
    }

    // Kept: loops that push. By a chain over the parts, flattened and collected, a call took 70 instructions, and takes 50.
    fn add<'a>(&'a self, calls: &mut Vec<Call<'a>>, part: &[KeptCall]) -> Result<(), AllocError> {
        for kept in part {
            calls.push(self.call(*kept))?;
        }
        Ok(())
    }

    pub(super) fn all(&self, heap: Global) -> Result<Vec<Call<'_>>, AllocError> {
        let mut calls = Vec::new(heap);
        for part in self.parts.as_slice() {
            self.add(&mut calls, part.as_slice())?;
        }
        self.add(&mut calls, self.last.as_slice())?;
        Ok(calls)
    }
}
