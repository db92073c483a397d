// The words of the command line.
use crate::ask::{run_digest, run_stream};
use crate::failure::Failure;
use crate::key_commands::run_checkkey;
use crate::scan::run_scan;
use crate::session::Session;
use params::Set;
use std::array::from_fn;
use std::io;
use std::str::FromStr;
use suites::Named;

// What is printed where the words make no command.
pub const USAGE: &str = "usage: mqdss scan N M R FILE
       mqdss digest SUITE LABEL FILE
       mqdss stream SUITE LABEL SEEDFILE COUNT
       mqdss key SUITE N M R SECRETFILE KEYFILE
       mqdss checkkey N M R KEYFILE
       mqdss sign SUITE N M R SECRETFILE MESSAGEFILE SIGNATUREFILE
       mqdss verify SUITE N M R KEYFILE MESSAGEFILE SIGNATUREFILE
       mqdss demo SUITE N M R SECRETFILE MESSAGEFILE DAMAGEDFILE
SUITE is bench or keccak; N, M, R, LABEL (0 to 255) and COUNT are decimal; files are raw bytes";

// What a word says; `wrong` where it says nothing of that kind.
fn said<'a, T: FromStr<Err: Drop>>(word: &'a str, wrong: Failure<'a>) -> Result<T, Failure<'a>> {
    word.parse().map_err(|_| wrong)
}

// The three numbers of a parameter set, in decimal.
fn set_of<'a>(n: &'a str, m: &'a str, r: &'a str) -> Result<Set, Failure<'a>> {
    Ok(Set {
        n: said(n, Failure::Usage)?,
        m: said(m, Failure::Usage)?,
        r: said(r, Failure::Usage)?,
    })
}

fn suite_of(name: &str) -> Result<Named, Failure<'_>> {
    said(name, Failure::NoSuite(name))
}

fn label_of(word: &str) -> Result<u8, Failure<'_>> {
    said(word, Failure::NoLabel(word))
}

fn count_of(word: &str) -> Result<usize, Failure<'_>> {
    said(word, Failure::NoCount(word))
}

// A suite and a set, by their words.
fn session_of<'r, 'a>(
    rt: &'r HostRuntime,
    suite: &'a str,
    n: &'a str,
    m: &'a str,
    r: &'a str,
) -> Result<Session<'r>, Failure<'a>> {
    Ok(Session {
        rt,
        suite: suite_of(suite)?,
        set: set_of(n, m, r)?,
    })
}

// Does what the words say; all of them are looked at before any file.
fn obey<'a>(rt: &HostRuntime, words: &[&'a str]) -> Result<(), Failure<'a>> {
    match *words {
        ["scan", n, m, r, path] => run_scan(rt, set_of(n, m, r)?, path),
        ["checkkey", n, m, r, path] => run_checkkey(rt, set_of(n, m, r)?, path),
        ["digest", suite, label, path] => run_digest(rt, suite_of(suite)?, label_of(label)?, path),
        ["stream", suite, label, path, count] => {
            let (suite, label, count) = (suite_of(suite)?, label_of(label)?, count_of(count)?);
            run_stream(rt, suite, label, path, count)
        }
        ["key", suite, n, m, r, secret, to] => {
            let session = session_of(rt, suite, n, m, r)?;
            session.key(secret, to)
        }
        ["sign", suite, n, m, r, secret, text, to] => {
            let session = session_of(rt, suite, n, m, r)?;
            session.sign(secret, text, to)
        }
        ["verify", suite, n, m, r, key, text, path] => {
            let session = session_of(rt, suite, n, m, r)?;
            session.verify(key, text, path)
        }
        ["demo", suite, n, m, r, secret, text, path] => {
            let session = session_of(rt, suite, n, m, r)?;
            session.demo(secret, text, path)
        }
        _ => Err(Failure::Usage),
    }
}

// Runs one command; true where it says yes.
pub fn run(rt: &HostRuntime, args: &[String]) -> io::Result<bool> {
    // one more than the longest command has, in an array: looking at the words takes no memory
    let words: [&str; 9] = from_fn(|i| args.get(i).map_or("", |word| word.as_str()));
    match obey(rt, &words[..args.len().min(9)]) {
        Ok(()) => Ok(true),
        Err(failure) => {
            failure.say(rt)?;
            Ok(false)
        }
    }
}
