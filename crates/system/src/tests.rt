use super::*;
use std::io::ErrorKind;

// Gives two bytes, then fails, and then has more.
#[derive(Drop)]
struct Broken(u8);

impl Read for Broken {
    fn read(&mut self, buf: &mut [u8]) -> io::Result<usize> {
        self.0 = self.0.saturating_add(1);
        if self.0 == 2 {
            return Err(io::Error::from(ErrorKind::Other));
        }
        if buf.len() < 2 {
            return Ok(0);
        }
        buf[0] = b'a';
        buf[1] = b'b';
        Ok(2)
    }
}

#[test]
fn reads_a_front(rt: HostRuntime) {
    for (text, n, front) in [
        (&b""[..], 0, *b"...."),
        (&b"ab"[..], 2, *b"ab.."),
        (&b"abcd"[..], 4, *b"abcd"),
        (&b"abcde"[..], 4, *b"abcd"),
    ] {
        let mut buf = *b"....";
        let mut reader = text;
        let (count, outcome) = read_front(&mut reader, &mut buf);
        assert_eq!(rt; count, n);
        assert!(rt; outcome.is_ok());
        assert_eq!(rt; buf, front);
    }
}

#[test]
fn ends_where_a_read_fails(rt: HostRuntime) {
    let mut buf = *b"....";
    let (count, outcome) = read_front(&mut Broken(0), &mut buf);
    assert_eq!(rt; count, 2);
    assert!(rt; outcome.is_err());
    assert_eq!(rt; buf, *b"ab..");
}

#[test]
fn says_that_there_is_no_file(rt: HostRuntime) {
    let mut buf = *b"....";
    let outcome = contents(&rt, "no such file", &mut buf);
    assert!(rt; outcome.is_err_and(|e| e.kind() == ErrorKind::NotFound));
    // A folder can be opened, and no read of it succeeds.
    assert!(rt; contents(&rt, ".", &mut buf).is_ok_and(|n| n == 0));
    assert_eq!(rt; buf, *b"....");
}

#[test]
fn leaves_out_the_number(rt: HostRuntime) {
    assert_eq!(rt;
        words("No space left on device (os error 28)"),
        "No space left on device"
    );
    assert_eq!(rt;
        words("failed to write whole buffer"),
        "failed to write whole buffer"
    );
}
