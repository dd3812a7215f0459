//! Adding multiples of P of a word to a sheet.
ghost use Rattle.std.specs.Prelude.{◌≡◌, ◌+◌, ◌*◌, ◌^◌, ◌<◌, ◌≤◌, [], ◌∷◌, length, map};
ghost use Rattle.bracket.specs.Cuts.{letters_of};
ghost use Rattle.coded_word.specs.Words.{word_of};
ghost use Rattle.sheet.specs.Words.{InShape};
ghost use Rattle.sheet_laws.specs.Terms.{followed, products, Below, added, raised};

use crate::expansion::{expand_parts, letter_term};
use crate::sum::{Sum, follow};
use bracket::{Cut, ShortWord};
use coded_word::{CodedWord, Shape};
use ring::Ring;
use sheet_laws::Term;

/// Adds a multiple of P of a word. What `memory` holds is lost.
#[tactic(auto, using(crate::proofs::Multiples::letters_over, crate::proofs::Multiples::letters_short, crate::proofs::Multiples::letters_some, crate::proofs::Multiples::letters_size, crate::proofs::Multiples::not_longer))]
pub(crate) fn add_polynomial<R: Ring>(
    word: CodedWord,
    factor: R,
    sheet: &mut [R],
    memory: &mut [Term],
)
    requires size { length sheet.old ≡ word.shape.k ^ word.length }
    requires memory { 4106 ≤ length memory.old }
    ensures { sheet.new ≡ raised R.ring word.shape.k (word_of word) factor sheet.old }
{
    let letters = word.letters();
    if let Some(short) = ShortWord::new(letters.as_slice()) {
        add_short(word.shape, short, factor, sheet, memory);
    }
}

/// Adds a multiple of P of a word that is not empty.
fn add_short<R: Ring>(
    shape: Shape,
    word: ShortWord,
    factor: R,
    sheet: &mut [R],
    memory: &mut [Term],
)
    requires word { InShape shape (letters_of word) × (0 < length (letters_of word)) }
    requires size { length sheet.old ≡ shape.k ^ length (letters_of word) }
    requires memory { 4106 ≤ length memory.old }
    ensures { sheet.new ≡ raised R.ring shape.k (letters_of word.entry) factor sheet.old }
{
    // P of the word itself is not written down: it is added part by part
    match word.cut() {
        Cut::Single => add_term(letter_term(word.letters), factor, sheet),
        Cut::Bracket(left, right) => {
            let (x, y) = expand_parts(shape, left, right, memory);
            add_product(x, y, false, factor, sheet);
            add_product(y, x, true, factor, sheet);
        }
        Cut::Product(first, rest) => {
            let (x, y) = expand_parts(shape, first, rest, memory);
            add_product(x, y, false, factor, sheet);
        }
    }
}

/// Adds a multiple of xy, or takes it away.
fn add_product<R: Ring>(x: Sum, y: Sum, opposite: bool, factor: R, sheet: &mut [R])
    requires size { length sheet.old ≡ x.words * y.words }
    requires few { x.words * y.words < 65536 }
    ensures { sheet.new ≡ added R.ring factor (products y.entry.words opposite x.entry.terms.now y.entry.terms.now) sheet.old }
{
    for front in x.terms {
        add_row(*front, y, opposite, factor, sheet);
    }
}

/// Adds a multiple of a term with each of y behind it, or takes it away.
fn add_row<R: Ring>(front: Term, y: Sum, opposite: bool, factor: R, sheet: &mut [R])
    requires size { front.code * y.words + y.words ≤ length sheet.old }
    requires few { length sheet.old < 65536 }
    ensures { sheet.new ≡ added R.ring factor (map (followed y.entry.words opposite front) y.entry.terms.now) sheet.old }
{
    for behind in y.terms {
        add_term(follow(front, y.words, *behind, opposite), factor, sheet);
    }
}

/// Adds a multiple of a term.
fn add_term<R: Ring>(term: Term, factor: R, sheet: &mut [R])
    requires { term.code < length sheet.old }
    ensures { sheet.new ≡ added R.ring factor (term ∷ []) sheet.old }
{
    let place = usize::from(term.code);
    let value = if term.negative {
        factor.negative()
    } else {
        factor
    };
    sheet[place] = sheet[place].plus(value);
}
