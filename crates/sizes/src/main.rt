// The sizing table (RULES 2.3) and boundary settings, as CF records from standard input: a line for each
// record, to be compared with answers worked out from exact fractions (tools/make_sizes.py).
#![tactic(auto)]

ghost use Rattle.std.specs.Prelude.{◌≡◌};
ghost use Rattle.rules.specs.State.{most};
ghost use Rattle.sizing.specs.Answers.{sizing_of};
ghost use Rattle.sizes.specs.Lines.{sized_line, line_for};

use sizing::Settings;
use std::{fmt, io};

// What a line says. Each of the three has a text of its own.
#[derive(Clone, Copy)]
enum Line {
    // A capacity, Small's limit and that of the ghosts.
    Limits(u64, u64, u64),
    // A capacity, and the number of the refusal.
    Refused(u64, u8),
    NoSettings,
}

impl fmt::Display for Line {
    fn fmt<W: fmt::Write>(&self, f: &mut fmt::Formatter<W>) -> fmt::Result {
        match *self {
            Line::Limits(capacity, small, ghosts) => {
                write!(f, "capacity {capacity}: small {small}, ghosts {ghosts}")
            }
            Line::Refused(capacity, why) => write!(f, "capacity {capacity}: refused {why}"),
            Line::NoSettings => write!(f, "no settings"),
        }
    }
}

fn line_sized(s: Settings) -> Line
    ensures { result ≡ sized_line s.capacity (sizing_of most s) }
{
    match sizing::size(s) {
        Ok(l) => Line::Limits(s.capacity, l.small_limit, l.ghost_limit),
        Err(why) => Line::Refused(s.capacity, why.number()),
    }
}

// What the line on a record says.
fn line_for(part: &[u8]) -> Line
    ensures { result ≡ line_for part.now }
{
    match sizing::read_settings(part) {
        Some(s) => line_sized(s),
        None => Line::NoSettings,
    }
}

// One line to each whole record, and one to what is left after them.
fn lines(rt: &impl Print, s: &[u8]) -> io::Result<()> {
    let records = s.chunks_exact(sizing::SETTINGS_BYTES);
    let rest = records.remainder();
    for record in records {
        rt.println(line_for(record))?;
    }
    rt.println(line_for(rest))
}

fn main(rt: HostRuntime) -> io::Result<()> {
    let mut buffer = intake::zeros::<{ intake::LARGE_BYTES }>();
    let n = intake::read_full(&mut rt.stdin(), &mut buffer);
    lines(&rt, &buffer[..n])
}
