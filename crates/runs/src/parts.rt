// A direction of a region cut at the bricks' faces.
ghost use Rattle.std.specs.Prelude.{◌≡◌, true, ◌+◌, ◌-◌, ◌%◌, ◌≤◌, ◌<◌, min, MatchOption};
ghost use Rattle.std.specs.Iterator.{at_most};
ghost use Rattle.checks.specs.Checks.{side_ok};

use crate::left;
use crate::site::Span;

// The parts of a direction that lie in one brick each: those from `at` on are still to come.
#[derive(Drop)]
pub struct Parts {
    pub start: usize,
    pub side: usize,
    pub at: usize,
    pub end: usize,
    pub ghost ok: { (side_ok side ≡ true) × (at ≤ end) × (start + end ≤ 4294967296) },
}

impl Parts {
    // The parts of the first n samples from start on.
    pub fn new(start: usize, side: usize, n: usize) -> Parts
        requires { (side_ok side ≡ true) × (start + n ≤ 4294967296) }
        ensures { (result.start ≡ start) × (result.side ≡ side) × (result.at ≡ 0) × (result.end ≡ n) }
    {
        Parts {
            start,
            side,
            at: 0,
            end: n,
        }
    }
}

impl Iterator for Parts {
    type Item = Span;

    ghost next_gives = { λ s r t. (t.start ≡ s.start) × (t.side ≡ s.side) × (t.end ≡ s.end) × MatchOption r (s.at ≡ s.end) (λ x.
        (s.at < s.end) × (x.at ≡ s.at) × (x.n ≡ min (s.side - (s.start + s.at) % s.side) (s.end - s.at)) × (t.at ≡ s.at + x.n)) };

    ghost remaining = { λ s. at_most (s.end - s.at) };

    fn next(&mut self) -> Option<Span> {
        let at = self.at;
        if at == self.end {
            return None;
        }
        let n = left(self.start, at, self.side, self.end - at);
        self.at += n;
        Some(Span { at, n })
    }
}
