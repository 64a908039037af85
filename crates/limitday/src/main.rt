// Plays a script of calls and prints what each is answered.
#![tactic(auto)]

mod calls;
mod day_calls;
mod kept_calls;
mod line;
mod pair_calls;
mod reading;
mod reference_calls;
mod refusals;
mod roster_calls;
mod rule_calls;
mod session;
mod shown;
mod tape_calls;

use anyhow::anyhow;
use calls::CALLS;
use line::Line;
use session::{Session, play_line};
use std::fs::File;
use std::io::{BufRead, BufReader, BufWriter, Read, Write};
use std::{env, io};

fn play<R: Read + Drop>(rt: &HostRuntime, input: R) -> io::Result<()> {
    let heap = rt.alloc();
    let mut out = BufWriter::new(heap, rt.stdout())?;
    let mut session = Session::new(heap)?;
    let lines = BufReader::new(heap, input)?.split(heap, b'\n');
    for (text, number) in lines.zip(1..) {
        let text = text?;
        let mut line = Line {
            out: &mut out,
            number,
        };
        play_line(rt, &mut session, &mut line, text.as_slice())?;
    }
    out.flush()
}

fn play_file(rt: &HostRuntime, path: &str) -> anyhow::Result<()> {
    match File::open(rt, path) {
        Ok(file) => Ok(play(rt, file)?),
        Err(error) => {
            eprintln!(rt; "limitday: {path}: {error}")?;
            Err(anyhow!("the script cannot be read"))
        }
    }
}

fn run(rt: &HostRuntime) -> anyhow::Result<()> {
    let mut args = env::args(rt)?.skip(1);
    let Some(path) = args.next() else {
        return Ok(play(rt, rt.stdin())?);
    };
    if args.next().is_some() {
        return Err(anyhow!("expected at most one script"));
    }
    if path.as_str() == "--help" {
        println!(rt; "{CALLS}")?;
        return Ok(());
    }
    play_file(rt, path.as_str())
}

fn main(rt: HostRuntime) -> anyhow::Result<()> {
    run(&rt)
}
