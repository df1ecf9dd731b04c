// What the first argument asks for. An option is one only there, so that any later argument is a file.
use crate::say;
use std::env::Env;

#[derive(Clone, Copy)]
pub(crate) enum Call {
    Help,
    List,
    Files(usize),
    Unknown,
}

// What is wrong with a call.
#[derive(Clone, Copy)]
pub(crate) enum Misuse {
    NoFile,
    NotOneFile,
    UnknownOption,
}

fn same(a: &[u8], b: &[u8]) -> bool {
    if a.len() != b.len() {
        return false;
    }
    for i in 0..a.len() {
        if a[i] != b[i] {
            return false;
        }
    }
    true
}

fn of(word: &[u8]) -> Call {
    if same(word, b"--help") {
        return Call::Help;
    }
    if same(word, b"--list") {
        return Call::List;
    }
    if same(word, b"--") {
        return Call::Files(2);
    }
    if word.len() == 0 {
        return Call::Files(1);
    }
    if word[0] == b'-' {
        return Call::Unknown;
    }
    Call::Files(1)
}

// One that is missing, or too long for a path, is no option.
pub(crate) fn first(rt: &impl Env) -> Call {
    let mut word = [0u8; 4096];
    match rt.arg(1, &mut word) {
        Ok(length) => of(&word[..length]),
        Err(_) => of(b""),
    }
}

// What is wrong with the call, and what calls there are.
pub(crate) fn wrong(rt: &impl Eprint, why: Misuse) {
    match why {
        Misuse::NoFile => say::error(rt, "framewitness: no file is named\n"),
        Misuse::NotOneFile => say::error(rt, "framewitness: --list takes one file\n"),
        Misuse::UnknownOption => {
            say::error(
                rt,
                "framewitness: the first argument is no option that is known\n",
            )
        }
    };
    say::error(
        rt,
        "    framewitness FILE ...       audits files\n\
          \x20   framewitness -- FILE ...    the same, where the first name begins with -\n\
          \x20   framewitness --list FILE    lists the samples of a file\n\
          \x20   framewitness --help         explains the verdicts\n",
    );
}
