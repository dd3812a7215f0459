//! Sums of words with signs, and their products.
ghost use Rattle.std.specs.Prelude.{◌≡◌, ◌+◌, ◌*◌, ◌<◌, ◌≤◌, true, false, ◌++◌, length, map};
ghost use Rattle.sheet_laws.specs.Terms.{followed, products, Below};

use sheet_laws::Term;

/// A sum of words of one length, each with a sign.
#[derive(Clone, Copy)]
pub(crate) struct Sum<'m> {
    pub(crate) terms: &'m [Term],
    /// How many words of this length there are.
    pub(crate) words: u16,
    ghost below: { Below words terms.now },
}

/// xy.
#[tactic(auto, using(crate::proofs::Sums::below_product))]
pub(crate) fn product<'m>(x: Sum, y: Sum, memory: &'m mut [Term]) -> Sum<'m>
    requires words { x.words * y.words < 65536 }
    requires room { length x.terms.now * length y.terms.now ≤ length memory.old }
    ensures words { result.words ≡ x.entry.words * y.entry.words }
    ensures terms { result.terms.now ≡ products y.entry.words false x.entry.terms.now y.entry.terms.now }
{
    let (terms, _) = memory.split_at_mut(x.terms.len() * y.terms.len());
    write_product(x, y, false, terms);
    Sum {
        terms,
        words: x.words * y.words,
    }
}

/// xy - yx.
#[tactic(auto, using(crate::proofs::Sums::below_bracket))]
pub(crate) fn bracket<'m>(x: Sum, y: Sum, memory: &'m mut [Term]) -> Sum<'m>
    requires words { x.words * y.words < 65536 }
    requires room { 2 * (length x.terms.now * length y.terms.now) ≤ length memory.old }
    ensures words { result.words ≡ x.entry.words * y.entry.words }
    ensures terms { result.terms.now ≡ products y.entry.words false x.entry.terms.now y.entry.terms.now ++ products x.entry.words true y.entry.terms.now x.entry.terms.now }
{
    let size = x.terms.len() * y.terms.len();
    let (terms, _) = memory.split_at_mut(2 * size);
    let (there, back) = terms.split_at_mut(size);
    write_product(x, y, false, there);
    write_product(y, x, true, back);
    Sum {
        terms,
        words: x.words * y.words,
    }
}

/// Writes the terms of xy, or their opposites.
fn write_product(x: Sum, y: Sum, opposite: bool, terms: &mut [Term])
    requires words { x.words * y.words < 65536 }
    requires size { length terms.old ≡ length x.terms.now * length y.terms.now }
    ensures { terms.new ≡ products y.entry.words opposite x.entry.terms.now y.entry.terms.now }
{
    for (i, front) in x.terms.iter().enumerate() {
        let start = i * y.terms.len();
        let row = &mut terms[start..start + y.terms.len()];
        write_row(*front, y, opposite, row);
    }
}

/// Writes a term with each of y behind it, or their opposites.
fn write_row(front: Term, y: Sum, opposite: bool, row: &mut [Term])
    requires words { front.code * y.words + y.words ≤ 65536 }
    requires size { length row.old ≡ length y.terms.now }
    ensures { row.new ≡ map (followed y.entry.words opposite front) y.entry.terms.now }
{
    for (j, behind) in y.terms.iter().enumerate() {
        row[j] = follow(front, y.words, *behind, opposite);
    }
}

/// A term with another behind it, where there are so many words as long as that one; or the opposite of both.
pub(crate) fn follow(front: Term, words: u16, behind: Term, opposite: bool) -> Term
    requires { front.code * words + behind.code < 65536 }
    ensures { result ≡ followed words opposite front behind }
{
    Term {
        code: front.code * words + behind.code,
        negative: opposite != (front.negative != behind.negative),
    }
}
