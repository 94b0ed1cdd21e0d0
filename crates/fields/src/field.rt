// Fields: the parts of a text between its separators.
ghost use Rattle.std.specs.Prelude.{◌≡◌, [], length, get_or};
ghost use Rattle.fields.specs.Split.{split, place};

// The place of the first byte c; the length where there is none.
pub fn find(s: &[u8], c: u8) -> usize
    ensures { result ≡ place c s.now }
{
    s.iter().position(|b| *b == c).unwrap_or(s.len())
}

// How many fields the bytes c part s into: at least one.
pub fn pieces(s: &[u8], c: u8) -> usize
    ensures { result ≡ length (split c s.now) }
{
    let mut n = 1;
    for b in s {
        if *b == c {
            n += 1;
        }
    }
    n
}

// Field k, as the part of s that it occupies; empty where there are fewer.
pub fn piece(s: &[u8], c: u8, k: usize) -> &[u8]
    ensures { result.now ≡ get_or (split c s.now) k [] }
{
    let mut t = s;
    for _ in 0..k {
        let n = find(t, c);
        if t.len() <= n {
            return &[];
        }
        t = &t[n + 1..];
    }
    &t[..find(t, c)]
}
