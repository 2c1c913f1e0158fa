// Runs recorded answers and published vectors: each file of data/ is a list of lines, and a line says
// what is asked and what the answer must be. The lines of data/wrong have wrong answers, so that a
// program that agrees to anything is noticed.
#![tactic(auto)]

use input::read_full;
use std::io::Read;
use std::rt::Files;
use std::{fs, io};

mod asked;
mod line;

// Reads a line and asks it: whether the two answers agree, or `None` at the file's end. A line that is cut off differs.
// A read that fails counts as the end of the file.
fn ask_next<R: Read>(rt: &impl Print, file: &mut R) -> io::Result<Option<bool>> {
    let mut text = [0u8; 53];
    let (n, _) = read_full(file, &mut text);
    if n == 0 {
        return Ok(None);
    }
    let l = line::parsed(&text[..n]);
    let answer = asked::answer(l.what, l.a, l.b);
    let agrees = n == 53 && answer == l.answer;
    if !agrees {
        rt.write_all(&text[..n])?;
    }
    Ok(Some(agrees))
}

#[derive(Clone, Copy)]
struct Count {
    lines: u64,
    agree: u64,
}

// All lines of a file. A proved loop has to end, and nothing says that a file does, so there are more turns than any
// file here has lines.
fn counted<R: Read>(rt: &impl Print, file: &mut R) -> io::Result<Count> {
    let mut count = Count { lines: 0, agree: 0 };
    for _ in 0..1000000u64 {
        let Some(agrees) = ask_next(rt, file)? else {
            break;
        };
        count.lines += 1;
        count.agree += u64::from(agrees);
    }
    Ok(count)
}

fn replay<R: Files + Print + Eprint>(rt: &R, name: &str) -> io::Result<()> {
    let mut file = match fs::open(rt, name) {
        Ok(file) => file,
        Err(e) => return rt.eprintln(format_args!("{name}: {e}")),
    };
    let c = counted(rt, &mut file)?;
    println!(rt; "{name}: {} of {} lines agree", c.agree, c.lines)
}

fn main(rt: HostRuntime) -> io::Result<()> {
    replay(&rt, "published")?;
    replay(&rt, "draws")?;
    replay(&rt, "forms")?;
    replay(&rt, "songs")?;
    replay(&rt, "pages")?;
    replay(&rt, "halls")?;
    replay(&rt, "sheets")?;
    replay(&rt, "editions")?;
    replay(&rt, "lessons")?;
    replay(&rt, "wrong")
}
