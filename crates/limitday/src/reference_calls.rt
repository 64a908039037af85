// The reference price, from the current tape.
use super::line::{Line, NoAnswer};
use super::session::Session;
use super::shown::Found;
use reference::finding::{Request, find_reference};
use reference::window::cut_window;
use std::io::Write;

impl Session {
    pub(super) fn cut<W: Write>(
        &self,
        line: &mut Line<'_, W>,
        close: u32,
        windows: u32,
    ) -> Result<(), NoAnswer> {
        let part = cut_window(self.current_tape()?, close, windows)?;
        let place = part.place;
        let length = part.bytes.len();
        Ok(line.tell(format_args!("window at {place} length {length}"))?)
    }

    // A refusal leaves no reference.
    pub(super) fn find<W: Write>(
        &mut self,
        line: &mut Line<'_, W>,
        request: Request<'_>,
    ) -> Result<(), NoAnswer> {
        let found = find_reference(self.current_tape()?, &request);
        self.reference = found.ok();
        Ok(line.tell(Found(found?))?)
    }
}
