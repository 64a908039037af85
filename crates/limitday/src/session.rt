// What a script has made so far, and the answer to each of its lines.
use super::calls::{Call, named};
use super::day_calls::Opened;
use super::line::{Line, NoAnswer};
use super::pair_calls::{KeptPair, none_kept};
use super::reading::{Words, read_call};
use super::roster_calls::{MOST_PLACES, Rosters};
use super::rule_calls::Rule;
use super::tape_calls::Started;
use reference::finding::Reference;
use std::alloc::{AllocError, Global};
use std::io;
use std::io::Write;
use std::str::from_utf8;

#[derive(Drop)]
pub struct Session {
    pub(super) heap: Global,
    pub(super) tape: Option<Vec<u8>>,
    pub(super) started: Option<Started>,
    pub(super) reference: Option<Reference>,
    pub(super) rule: Option<Rule>,
    pub(super) rosters: Rosters,
    pub(super) opened: Option<Opened>,
    pub(super) kept: KeptPair,
}

impl Session {
    pub fn new(heap: Global) -> Result<Session, AllocError> {
        Ok(Session {
            heap,
            tape: None,
            started: None,
            reference: None,
            rule: None,
            rosters: Rosters::new(heap, MOST_PLACES, MOST_PLACES)?,
            opened: None,
            kept: none_kept(),
        })
    }

    fn answer<W: Write>(
        &mut self,
        rt: &HostRuntime,
        line: &mut Line<'_, W>,
        call: Call<'_>,
    ) -> Result<(), NoAnswer> {
        match call {
            Call::Tape(bytes) => self.take_tape(line, bytes),
            Call::TapeFile(path) => self.take_file(rt, line, path),
            Call::Records => self.list_records(line),
            Call::Start(capacity) => self.start(line, capacity),
            Call::Write(record) => self.write(line, record),
            Call::Written => self.finish(line),
            Call::Window { close, windows } => self.cut(line, close, windows),
            Call::Reference(request) => self.find(line, request),
            Call::Rule(rule) => self.use_rule(line, rule),
            Call::Offset { level, price } => self.tell_offset(line, level, price),
            Call::Places { months, series } => self.lay_out(line, months, series),
            Call::List(change, listed) => self.change_listings(line, change, listed),
            Call::Open(price) => self.open_day(line, price),
            Call::Ask(timed) => self.ask(line, timed),
            Call::Replay(time) => self.replay(line, time),
            Call::Keep(seat) => self.keep(line, seat),
            Call::Pair(request, further) => self.pair(line, request, further),
        }
    }

    // A blank line and a comment have no answer.
    fn play<W: Write>(
        &mut self,
        rt: &HostRuntime,
        line: &mut Line<'_, W>,
        bytes: &[u8],
    ) -> Result<(), NoAnswer> {
        let text = from_utf8(bytes).map_err(|_| NoAnswer::Expected("text in UTF-8"))?;
        let mut rest = text.split_whitespace();
        let Some(first) = rest.next().filter(|first| !first.starts_with('#')) else {
            return Ok(());
        };
        let (verb, form) = named(first).ok_or(NoAnswer::Expected(
            "a call that limitday --help lists",
        ))?;
        let mut symbol = Vec::new(self.heap);
        let words = Words {
            heap: self.heap,
            rest,
        };
        let call = read_call(words, verb, &mut symbol).map_err(|fault| fault.expecting(form))?;
        self.answer(rt, line, call)
    }
}

// Answers one line of a script.
pub fn play_line<W: Write>(
    rt: &HostRuntime,
    session: &mut Session,
    line: &mut Line<'_, W>,
    bytes: &[u8],
) -> io::Result<()> {
    match session.play(rt, line, bytes) {
        Ok(()) => Ok(()),
        Err(NoAnswer::Expected(what)) => line.tell(format_args!("error: expected {what}")),
        Err(NoAnswer::Before(what)) => {
            line.tell(format_args!("error: expected {what} before this call"))
        }
        Err(NoAnswer::Refused(refusal)) => line.tell(refusal),
        Err(NoAnswer::Io(error)) => Err(error),
    }
}
