// The lines of a text, one after the other.
ghost use Rattle.std.specs.Prelude.{◌≡◌, length, MatchOption};
ghost use Rattle.std.specs.Iterator.{at_most};
ghost use Rattle.fields.specs.private.Lines.{LineTaken, CutTaken};
ghost use Rattle.fields.specs.Split.{lines};
ghost use Rattle.fields.specs.Split.Lines.{done};

use crate::field::find;

// The text that is to come.
#[derive(Clone, Copy)]
pub struct Lines<'a> {
    pub rest: &'a [u8],
}

impl<'a> Lines<'a> {
    // The lines of a text.
    pub fn of(text: &'a [u8]) -> Lines<'a>
        ensures { result.rest.now ≡ text.now }
    {
        Lines { rest: text }
    }
}

// A line, without its line feed; and last None, if the text goes on after the last line feed.
impl<'a> Iterator for Lines<'a> {
    type Item = Option<&'a [u8]>;

    ghost next_gives = { λ old r new. MatchOption r (lines old.rest.now ≡ done) (λ item. MatchOption item (CutTaken old.rest.now new.rest.now) (λ l. LineTaken old.rest.now l.now new.rest.now)) };

    ghost remaining = { λ s. at_most (length s.rest.now) };

    fn next(&mut self) -> Option<Option<&'a [u8]>> {
        let text = self.rest;
        if text.is_empty() {
            return None;
        }
        let end = find(text, b'\n');
        if text.len() <= end {
            self.rest = &[];
            return Some(None);
        }
        self.rest = &text[end + 1..];
        Some(Some(&text[..end]))
    }
}
