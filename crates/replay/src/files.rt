// The two files that the program is called with. Where standard error can't be written to, the exit status alone tells.
use std::env::{Env, FillError};
use std::fmt::Display;
use std::rt::Files;
use std::{fs, str};

// The most bytes of a path.
const PATH: usize = 4096;

// What is wrong, and how the program is called.
pub fn usage(rt: &impl Eprint, wrong: &str) {
    let _ = eprintln!(rt;
        "{wrong}\ncalled as: replay TRACE ENROLMENTS (- as TRACE is standard input)"
    );
}

// Whether two arguments stand behind the program's name.
pub fn are_two(rt: &impl Env) -> bool {
    is_there(rt, 2) && !is_there(rt, 3)
}

fn is_there(rt: &impl Env, i: usize) -> bool {
    !matches!(rt.arg(i, &mut []), Err(FillError::NotPresent))
}

// Whether argument i is "-", which may stand for standard input.
pub fn is_dash(rt: &impl Env, i: usize) -> bool {
    let mut text = [0; 1];
    matches!(rt.arg(i, &mut text), Ok(1)) && text[0] == b'-'
}

// The file that argument i names, open for reading; where it can't be, that is told.
pub fn open<R: Env + Files + Eprint>(rt: &R, i: usize) -> Option<R::File> {
    let mut path = [0; PATH];
    let Ok(n) = rt.arg(i, &mut path) else {
        return failed(rt, "argument: File name too long");
    };
    let Ok(path) = str::from_utf8(&path[..n]) else {
        return failed(rt, "argument: the file's name is not UTF-8");
    };
    match fs::open(rt, path) {
        Ok(file) => Some(file),
        Err(e) => failed(rt, format_args!("{path}: {e}")),
    }
}

fn failed<T, D: Display + Drop>(rt: &impl Eprint, wrong: D) -> Option<T> {
    let _ = eprintln!(rt; "replay: {wrong}");
    usage(rt, "replay: no reading was made");
    None
}
