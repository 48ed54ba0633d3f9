// Reads the text of a day from standard input, declares its templates, checks the paths of its schedule, and says
// for each line what was done.
//
// Blank lines and lines that begin with `#` are skipped. `[templates]` and `[schedule]` begin a section; a line
// before either cannot be read. A line that cannot be read is told with its number and column, and nothing of it
// is carried out. Of each declared template the program also says what its rows would be if nothing were written.
#![tactic(auto)]

mod day;
mod line;
mod parts;
mod paths;
mod templates;
mod told;
mod unwritten;

use day::Day;
use line::Line;
use std::io;
use std::io::{BufRead, BufReader};

fn main(rt: HostRuntime) -> io::Result<()> {
    let heap = rt.alloc();
    let mut day = Day::new(heap)?;
    let lines = BufReader::new(heap, rt.stdin())?.split(heap, b'\n');
    for (number, line) in (1..).zip(lines) {
        let text = &line?;
        day.take_line(&rt, Line { number, text })?;
    }
    Ok(())
}
