// Word fields: whether a field is a word.
ghost use Rattle.std.specs.Prelude.{◌≡◌, cond};
ghost use Rattle.fields.specs.Split.{alike};

// Whether a and b hold the same bytes.
pub fn same(a: &[u8], b: &[u8]) -> bool
    ensures { result ≡ alike a.now b.now }
{
    a == b
}

// k where f is the word w, else rest.
pub fn pick(f: &[u8], w: &[u8], k: usize, rest: usize) -> usize
    ensures { result ≡ cond (alike f.now w.now) k rest }
{
    if same(f, w) { k } else { rest }
}
