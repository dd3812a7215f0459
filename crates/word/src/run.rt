//! Duval's algorithm: the equal factors with which a word begins, in one pass over them, and so a word run by run.
ghost use Rattle.std.specs.Prelude.{◌≡◌, ◌-◌, ◌/◌, ◌<◌, [], length, MatchOption};
ghost use Rattle.std.specs.Iterator.{at_most};
ghost use Rattle.lyndon.specs.Runs.{LeadingRun};
ghost use Rattle.word.specs.Passing.{gives_run};

use letter_order::Order;

/// Equal factors in a row.
#[derive(Clone, Copy)]
pub(crate) struct Run {
    /// How many letters each of them has.
    pub period: usize,
    /// How many there are.
    pub count: usize,
}

impl Run {
    /// As many factors of `period` letters as these letters have.
    fn within(letters: usize, period: usize) -> Run
        requires { 0 < period }
        ensures period { result.period ≡ period }
        ensures count { result.count ≡ letters / period }
    {
        Run {
            period,
            count: letters / period,
        }
    }
}

/// The equal factors with which a word begins, or none for the empty word.
pub(crate) fn leading_run<L, O: Order<L>>(order: &O, word: &[L]) -> Option<Run>
    ensures { MatchOption result
        (word.now ≡ [])
        (λ run. LeadingRun (O.ranks order.now) word.now run.period run.count) }
{
    if word.is_empty() {
        return None;
    }
    let mut period = 1;
    for read in 1..word.len() {
        let (back, next) = (&word[read - period], &word[read]);
        if order.before(next, back) {
            return Some(Run::within(read, period));
        }
        if order.before(back, next) {
            period = read + 1;
        }
    }
    Some(Run::within(word.len(), period))
}

/// The runs of equal factors of a word, each with the place where it begins.
// the whole word and a place, and not what is left of it: a run is told with its place;
// elsewhere an order and a word are two parameters: no fact binds them, and a struct would only be built and taken apart
#[derive(Drop)]
pub(crate) struct Runs<'a, L, O> {
    order: &'a O,
    word: &'a [L],
    /// How many letters are passed.
    from: usize,
}

impl<'a, L, O: Order<L>> Runs<'a, L, O> {
    /// The runs of a whole word.
    pub(crate) fn new(order: &'a O, word: &'a [L]) -> Self
        ensures order { result.order.now ≡ order.now }
        ensures word { result.word.now ≡ word.now }
        ensures from { result.from ≡ 0 }
    {
        Runs {
            order,
            word,
            from: 0,
        }
    }
}

impl<'a, L, O: Order<L>> Iterator for Runs<'a, L, O> {
    type Item = (usize, Run);

    ghost next_gives = { gives_run O.Order.ranks };

    ghost remaining = { λ s. at_most (length s.word.now - s.from) };

    fn next(&mut self) -> Option<(usize, Run)> {
        let from = self.from;
        let run = leading_run(self.order, self.word.get(from..)?)?;
        self.from += run.count * run.period;
        Some((from, run))
    }
}
