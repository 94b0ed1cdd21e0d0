// Number fields: decimal, 1 to 5 digits, leading zeros among them.
ghost use Rattle.std.specs.Prelude.{◌≡◌};
ghost use Rattle.fields.specs.Number.{number_of};

// The most digits of a number.
const DIGITS: usize = 5;

// The number that a field holds.
pub fn read_number(f: &[u8]) -> Option<usize>
    ensures { result ≡ number_of f.now }
{
    if f.is_empty() || DIGITS < f.len() {
        return None;
    }
    let mut v = 0;
    for d in f {
        if !d.is_ascii_digit() {
            return None;
        }
        v = v * 10 + usize::from(*d - b'0');
    }
    Some(v)
}
