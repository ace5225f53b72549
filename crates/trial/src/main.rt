// A trial: lines of calls from standard input or from a file, what they print to standard output, what is wrong to standard error.
#![tactic(auto)]

mod help;
mod run;
mod streams;

use help::help;
use run::run;
use std::env::{Env, FillError};
use std::fs;
use streams::{fail, write_whole};

// The longest name of a file, and a zero after it.
const NAME: usize = 4096;

fn tell(rt: &HostRuntime, text: &str) {
    let _written = write_whole(rt, &mut rt.stderr(), text.as_bytes());
}

fn run_file(rt: &HostRuntime, path: &str) {
    match fs::open(rt, path) {
        Ok(file) => {
            let mut file = file;
            run(rt, &mut file, path.as_bytes());
        }
        Err(error) => fail(rt, path.as_bytes(), &error),
    }
}

// A file whose name begins with `-` is given as `./-`.
fn run_argument(rt: &HostRuntime, argument: &str) {
    if argument == "--help" {
        help(rt);
    } else if argument.starts_with('-') {
        tell(
            rt,
            "trial: no such option; trial --help says what there is\n",
        );
    } else {
        run_file(rt, argument);
    }
}

fn main(rt: HostRuntime) {
    let mut name = [0u8; NAME];
    if !matches!(rt.arg(2, &mut name), Err(FillError::NotPresent)) {
        tell(
            &rt,
            "trial: more than one argument; trial --help says what there is\n",
        );
        return;
    }
    match rt.arg(1, &mut name) {
        Err(FillError::NotPresent) => run(&rt, &mut rt.stdin(), b"standard input"),
        Err(FillError::TooLong) => tell(&rt, "trial: its argument: File name too long\n"),
        Ok(length) => match str::from_utf8(&name[..length]) {
            Ok(argument) => run_argument(&rt, argument),
            Err(_) => tell(&rt, "trial: its argument: not UTF-8\n"),
        },
    }
}
