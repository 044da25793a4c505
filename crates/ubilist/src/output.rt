// The listing to standard output, and what there is to say to standard error.
use crate::calls;
use std::io;
use transfer::Transfer;

// Writes all of the text, or says that it could not.
pub fn print(rt: &(impl Print + Eprint + AllocGlobal), text: &[u8]) -> io::Result<()> {
    match write(rt, text) {
        Ok(Transfer::Full) => Ok(()),
        Ok(_) => say(rt, "standard output: nothing more was taken"),
        Err(e) => fail(rt, "standard output", &e),
    }
}

// One line to standard error: what failed, and why.
pub fn fail(rt: &(impl Eprint + AllocGlobal), what: &str, error: &io::Error) -> io::Result<()> {
    let why = format!(in rt.alloc(); "{error}")?;
    eprintln!(rt; "ubilist: {what}: {}", without_number(why.as_str()))
}

// One line to standard error.
pub fn say(rt: &impl Eprint, line: &str) -> io::Result<()> {
    eprintln!(rt; "ubilist: {line}")
}

// The words of an error, which std ends with the number of an `errno`.
fn without_number(text: &str) -> &str {
    match text.split_once(" (os error ") {
        Some((words, _)) => words,
        None => text,
    }
}

// Where no call fails, what the row of calls has come to.
fn write(rt: &impl Print, text: &[u8]) -> io::Result<Transfer> {
    if text.is_empty() {
        return Ok(Transfer::Full);
    }
    let mut p = transfer::begin();
    // `loop`: what the call before came to says whether another is due.
    loop {
        let got = rt.write_some(&text[p.moved..]);
        let t = calls::after(p, text.len(), &got);
        let Transfer::On(next) = t else {
            got?;
            return Ok(t);
        };
        p = next;
    }
}
