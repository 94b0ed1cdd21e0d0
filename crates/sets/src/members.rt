// The members of a set, one after the other.
ghost use Rattle.std.specs.Prelude.{◌≡◌, MatchOption};
ghost use Rattle.std.specs.Iterator.{at_most};
ghost use Rattle.sets.specs.Sets.{Taken};

// The members that are to come, the least first.
#[derive(Clone, Copy)]
pub struct Members {
    pub rest: u64,
}

impl Members {
    // The members of w.
    pub fn of(w: u64) -> Members
        ensures { result.rest ≡ w }
    {
        Members { rest: w }
    }
}

impl Iterator for Members {
    type Item = usize;

    ghost next_gives = { λ old r new. MatchOption r (old.rest ≡ 0) (λ a. Taken old.rest a new.rest) };

    ghost remaining = { λ s. at_most s.rest };

    fn next(&mut self) -> Option<usize> {
        if self.rest == 0 {
            return None;
        }
        let member = crate::least_of(self.rest);
        self.rest = crate::rest_of(self.rest);
        Some(member)
    }
}
