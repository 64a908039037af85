ghost use Rattle.std.specs.Prelude.{◌≡◌, ◌-◌, ◌*◌, ◌≤◌, min, IfOk, slice_index, slice_set};
ghost use Rattle.reference.specs.Windows.{fit_range, parted, cut, Holds};
ghost use Rattle.reference.specs.Edges.{window_of, lowest, Edged, Finds};

use super::fault::ReferenceFault;
use tape::fault::TapeFault;
use tape::reader::Reader;

// How many milliseconds each window reaches further back than the one before.
const WIDENING: u32 = 30_000;

const MAX_WINDOWS: u32 = 20;

const LAST_CLOSE: u32 = 86_400_000;

// An edge for the close and one for the start of each window.
const EDGES: usize = 1 + MAX_WINDOWS as usize;

/// A part of a tape, and where it begins there.
#[derive(Clone, Copy, Debug, PartialEq, Eq)]
pub struct Part<'a> {
    pub place: usize,
    pub bytes: &'a [u8],
}

// At n the place of the first record that window n has and window n - 1 has not, at 0 of the first from the close on;
// the tape's end where there is none.
#[derive(Clone, Copy)]
pub(super) struct Edges {
    close: u32,
    places: [usize; EDGES],
}

// Kept: close and windows are two of a request's fields, of which a window has no symbol.
pub(super) fn is_range(close: u32, windows: u32) -> bool
    ensures { result ≡ fit_range close windows }
{
    (WIDENING..=LAST_CLOSE).contains(&close)
        && (1..=MAX_WINDOWS).contains(&windows)
        && WIDENING * windows <= close
}

// The first window that has a time; 0 from the close on.
fn window_of(close: u32, time: u32) -> usize
    ensures { result ≡ window_of close time }
{
    if time >= close {
        return 0;
    }
    1 + ((close - 1 - time) / WIDENING) as usize
}

impl Edges {
    // Takes note of a record's place.
    fn note(&mut self, time: u32, place: usize)
        ensures close { self.new.close ≡ self.old.close }
        ensures places { self.new.places ≡ slice_set self.old.places (window_of self.old.close time) (min (slice_index self.old.places (window_of self.old.close time)) place) }
    {
        let window = window_of(self.close, time);
        // Kept: by `get_mut` it stayed unproved what the places end as, of which its contract says nothing.
        if window < EDGES {
            self.places[window] = self.places[window].min(place);
        }
    }

    // Where the records of a window begin; window 0 begins at the close.
    fn edge(&self, windows: usize) -> usize
        requires { windows ≤ 20 }
        ensures { result ≡ lowest self.now.places windows }
    {
        self.places[0..=windows].iter().copied().min().unwrap_or(0)
    }

    // The part of the tape with these edges that holds a window's records.
    pub(super) fn part<'a>(&self, tape: &'a [u8], windows: u32) -> Part<'a>
        requires edged { Edged tape.now self.now }
        requires windows_bound { windows ≤ 20 }
        ensures { Holds tape.now (self.now.close - 30000 * windows) self.now.close result }
    {
        let start = self.edge(windows as usize);
        let end = self.edge(0);
        Part {
            place: start,
            bytes: &tape[start..end],
        }
    }
}

// Reads a whole tape once, and finds the edges of every window before a close.
pub(super) fn find_edges(tape: &[u8], close: u32) -> Result<Edges, TapeFault>
    ensures { Finds tape.now close result }
{
    let mut reader = Reader::start(tape)?;
    let mut edges = Edges {
        close,
        places: [tape.len(); EDGES],
    };
    while let Some(placed) = reader.next()? {
        edges.note(placed.record.time(), placed.place);
    }
    Ok(edges)
}

/// The part of a sound tape that holds the records of a window: those timed from `windows` times 30,000 milliseconds
/// before the close up to but without the close.
pub fn cut_window(tape: &[u8], close: u32, windows: u32) -> Result<Part<'_>, ReferenceFault>
    ensures gives { parted result ≡ cut close windows tape.now }
    ensures holds { IfOk result (Holds tape.now (close - 30000 * windows) close) }
{
    if !is_range(close, windows) {
        return Err(ReferenceFault::Request);
    }
    let edges = find_edges(tape, close)?;
    Ok(edges.part(tape, windows))
}
