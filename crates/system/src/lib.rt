// What the programs ask of the system: the front of a file, and a line of what failed.
#![tactic(auto)]

ghost use Rattle.std.specs.Prelude.{◌≡◌, ◌<◌, ◌≤◌, length, take, OnErr, OnOk};
ghost use Rattle.std.specs.Io.{ReadsAtMost};
ghost use Rattle.std.specs.Io.KnownBytes.{Consumes, IsAtEnd};

use std::io::{Cursor, Read, Write};
use std::rt::Files;
use std::{fs, io};

// Reads until buf is full, the input ends or a read fails. The count of bytes, which stand at the start of buf, and
// the error of the read that failed.
pub fn read_front<R: Read>(reader: &mut R, buf: &mut [u8]) -> (usize, io::Result<()>)
    ensures within { result.0 ≤ length buf.new }
    ensures front { result.0 ≡ length (take result.0 buf.new) }
    ensures bytes { Consumes (R.remaining reader.old) (R.remaining reader.new) (take result.0 buf.new) }
    ensures end { OnOk result.1 (result.0 < length buf.new → IsAtEnd (R.remaining reader.new)) }
{
    let mut done = 0;
    while done < buf.len() {
        match reader.read(&mut buf[done..]) {
            Ok(0) => return (done, Ok(())),
            Ok(n) => done += n,
            Err(error) => return (done, Err(error)),
        }
    }
    (done, Ok(()))
}

// Reads what a file has, as far as buf reaches. A read that fails counts as the file's end. The error is that of a
// file that cannot be opened.
pub fn contents(rt: &impl Files, path: &str, buf: &mut [u8]) -> io::Result<usize>
    ensures ok { ReadsAtMost result buf.new }
    ensures err { OnErr result (buf.new ≡ buf.old) }
{
    let mut file = fs::open(rt, path)?;
    let (n, _) = read_front(&mut file, buf);
    Ok(n)
}

// What an error displays, up to its number.
fn words(text: &str) -> &str {
    match text.split_once(" (os error ") {
        Some((said, _)) => said,
        None => text,
    }
}

// Writes a line to standard error: what failed, as the caller names it, a colon and the system's words for the error.
pub fn say_failed(rt: &impl Eprint, what: &str, error: io::Error) {
    let mut text = [0u8; 256];
    let mut line = Cursor::new(&mut text[..]);
    let _ = write!(line, "{error}");
    let n = (line.position() as usize).min(256);
    let said = words(str::from_utf8(&text[..n]).unwrap_or(""));
    let _ = eprintln!(rt; "{what}: {said}");
}

#[cfg(test)]
mod tests;
