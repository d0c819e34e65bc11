// Replays files of cases and answers: each case is lent to the face, and what the call leaves
// behind is compared with the answer that stands after it. tests/README.md has the framing.
//
// Each argument is a file. Writes a line for each, and the totals. A line that cannot be written ends
// the program with the error.
#![tactic(auto)]

mod buffers;
mod bytes;
mod compare;
mod frame;
mod one;

ghost use Rattle.std.specs.Prelude.{◌≤◌, length, IfOk};

use crate::frame::Frame;
use std::env::FillError;
use std::io::Read;
use std::ops::Add;
use std::rt::{Env, Files};
use std::{fs, io, str};

// What a file is read into; it has to be shorter.
const SPACE: usize = 1048576;

// How many cases were replayed, and how many of them differ.
#[derive(Clone, Copy, Default)]
struct Totals {
    cases: u64,
    differ: u64,
}

impl Totals {
    // With one more case.
    fn with(self, agrees: bool) -> Totals {
        let case = Totals {
            cases: 1,
            differ: u64::from(!agrees),
        };
        self + case
    }
}

impl Add for Totals {
    type Output = Totals;

    fn add(self, more: Totals) -> Totals {
        Totals {
            cases: self.cases.wrapping_add(more.cases),
            differ: self.differ.wrapping_add(more.differ),
        }
    }
}

// Every case of a file. One that is cut off counts as differing, and ends it.
fn replay(file: &[u8]) -> Totals {
    let mut totals = Totals::default();
    let mut rest = file;
    while !rest.is_empty() {
        let Some((frame, next)) = Frame::read(rest) else {
            return totals.with(false);
        };
        totals = totals.with(one::agrees(&frame));
        rest = next;
    }
    totals
}

fn print_totals(rt: &impl Print, name: &[u8], totals: Totals) -> io::Result<()> {
    rt.write_all(name)?;
    println!(rt; ": {} cases, {} differ", totals.cases, totals.differ)
}

// Reads until `space` is full or the file ends, and answers how much of it is used. The loop stays: of std, `read_exact`
// does not say how far it came, and `read_to_end` takes memory.
fn read_full(file: &mut impl Read, space: &mut [u8]) -> io::Result<usize>
    ensures { IfOk result (λ n. n ≤ length space.new) }
{
    let mut used = 0;
    while used < space.len() {
        let n = file.read(&mut space[used..])?;
        if n == 0 {
            break;
        }
        used += n;
    }
    Ok(used)
}

// The file of that name. None where there is none that can be opened, and then standard error says why.
fn opened<R: Files + Eprint>(rt: &R, name: &[u8]) -> io::Result<Option<R::File>> {
    let Ok(path) = str::from_utf8(name) else {
        eprintln!(rt; "the name of a file is no UTF-8")?;
        return Ok(None);
    };
    match fs::open(rt, path) {
        Ok(file) => Ok(Some(file)),
        Err(error) => {
            eprintln!(rt; "{path}: {error}")?;
            Ok(None)
        }
    }
}

// Reads the file into `space`, and answers how much of it is used: all of it where the file is too
// long. Nothing where it cannot be opened.
fn read(rt: &(impl Files + Eprint), name: &[u8], space: &mut [u8]) -> io::Result<usize>
    ensures { IfOk result (λ n. n ≤ length space.new) }
{
    match opened(rt, name)? {
        Some(mut file) => read_full(&mut file, space),
        None => Ok(0),
    }
}

// A file that is empty, cannot be opened or does not fit counts as one case that differs.
fn replay_file(
    rt: &(impl Files + Eprint),
    name: &[u8],
    space: &mut [u8; SPACE],
) -> io::Result<Totals> {
    let n = read(rt, name, space)?;
    if n == 0 || n >= space.len() {
        return Ok(Totals::default().with(false));
    }
    Ok(replay(&space[..n]))
}

// A file, and its line.
fn replay_named(rt: &(impl Files + Print + Eprint), name: &[u8]) -> io::Result<Totals> {
    let mut space = [0u8; SPACE];
    let totals = replay_file(rt, name, &mut space)?;
    print_totals(rt, name, totals)?;
    Ok(totals)
}

// What the file of argument `i` has. None where there is no such argument; of one that is too long for any
// path nothing is taken, and no file has the name that is left.
fn replay_argument(
    rt: &(impl Env + Files + Print + Eprint),
    i: usize,
) -> io::Result<Option<Totals>> {
    let mut path = [0u8; 4096];
    match rt.arg(i, &mut path) {
        Ok(n) => Ok(Some(replay_named(rt, &path[..n])?)),
        Err(FillError::NotPresent) => Ok(None),
        Err(FillError::TooLong) => Ok(Some(replay_named(rt, b"")?)),
    }
}

fn replay_all(rt: &(impl Env + Files + Print + Eprint)) -> io::Result<Totals> {
    let mut totals = Totals::default();
    for i in 1..usize::MAX {
        let Some(more) = replay_argument(rt, i)? else {
            break;
        };
        totals = totals + more;
    }
    Ok(totals)
}

fn main(rt: HostRuntime) -> io::Result<()> {
    let totals = replay_all(&rt)?;
    print_totals(&rt, b"all", totals)
}
