// Writing: bytes are stored where the output has room and counted everywhere, so that one function measures and writes.
ghost use Rattle.std.specs.Prelude.{[], ◌∷◌, ◌+◌, ◌^◌, ◌<◌, length};
ghost use Rattle.fields.specs.Number.{digits};
ghost use Rattle.fields.specs.private.Put.{Put};

// Puts b at a place, if the output reaches so far. The next place.
pub(crate) fn put(out: &mut [u8], at: usize, b: u8) -> usize
    requires { at < 2 ^ 62 }
    ensures { Put out.old out.new at result (b ∷ []) }
{
    if at < out.len() {
        out[at] = b;
    }
    at + 1
}

// Puts the bytes of w from a place on, as far as the output reaches. The place after them.
pub(crate) fn put_word(out: &mut [u8], at: usize, w: &[u8]) -> usize
    requires { at + length w.now < 2 ^ 62 }
    ensures { Put out.old out.new at result w.now }
{
    let mut next = at;
    for b in w {
        next = put(out, next, *b);
    }
    next
}

// Puts the digits of n, worked out from the last one on. A call of itself for the digits before the last is slower.
fn put_digits(out: &mut [u8], at: usize, n: usize) -> usize
    requires { (n < 100000) × (at < 2 ^ 61) }
    ensures { Put out.old out.new at result (digits n) }
{
    let mut d = [0u8; 5];
    let mut i = 5;
    let mut v = n;
    while 9 < v {
        i -= 1;
        d[i] = 48 + (v % 10) as u8;
        v = v / 10;
    }
    i -= 1;
    d[i] = 48 + v as u8;
    put_word(out, at, &d[i..])
}

// Puts the digits of n, one or two of them without working out how many there are.
pub(crate) fn put_number(out: &mut [u8], at: usize, n: usize) -> usize
    requires { (n < 100000) × (at < 2 ^ 61) }
    ensures { Put out.old out.new at result (digits n) }
{
    if n < 10 {
        return put(out, at, 48 + n as u8);
    }
    if n < 100 {
        let next = put(out, at, 48 + (n / 10) as u8);
        return put(out, next, 48 + (n % 10) as u8);
    }
    put_digits(out, at, n)
}
