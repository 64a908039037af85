ghost use Rattle.std.specs.Prelude.{◌≡◌, is_some};
ghost use Rattle.watch_laws.specs.Laws.{Laws};
ghost use Rattle.watch_laws.specs.Playing.{takes_at, after_mark, reading};
ghost use Rattle.watch_laws.specs.Worked.{Worked};

use watches::{AcceptedMark, State, Watches};

/// Moves to a mark's time and takes the mark. None where its time is not timely, or a halt runs there.
fn accept(day: &mut Watches, mark: AcceptedMark, levels: u8) -> Option<()>
    ensures answer { is_some result ≡ takes_at day.old.state mark }
    ensures state { day.new.state ≡ after_mark levels day.old.state mark }
{
    if !day.is_timely(mark.time) {
        return None;
    }
    day.move_to(mark.time);
    if day.state().phase.is_halted() {
        return None;
    }
    day.mark(mark.kind, levels);
    Some(())
}

/// The day at `time` after these marks, in the order of their acceptance. None where one of them could not have been
/// accepted after those before it, or where `time` is before the last of them or not of the day.
pub fn read_marks(marks: &[AcceptedMark], levels: u8, time: u32) -> Option<State>
    ensures answer { result ≡ reading levels marks.now time }
    ensures laws { Laws levels }
    ensures worked { Worked }
{
    let mut day = Watches::fresh();
    for mark in marks {
        accept(&mut day, *mark, levels)?;
    }
    day.is_timely(time).then(|| {
        day.move_to(time);
        day.state()
    })
}
