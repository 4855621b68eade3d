//! Numbers behind a word.

use affine::Form;
use arrayvec::ArrayVec;

/// The most numbers of an item.
const MOST: usize = 16;

/// The numbers of a list of words, or None where a word is no number or there are more than 16.
pub fn numbers(words: &str) -> Option<ArrayVec<i64, 16>> {
    let mut found = ArrayVec::new();
    for word in words.split_whitespace() {
        if found.len() == MOST {
            return None;
        }
        found.push(word.parse::<i64>().ok()?);
    }
    Some(found)
}

/// The form of these numbers: a coefficient for each loop, and then a constant. None where they are not that many, or a
/// coefficient is too large.
pub fn form_of<const D: usize>(numbers: &[i64]) -> Option<Form<D>> {
    let (cst, coef) = numbers.split_last()?;
    if coef.len() != D {
        return None;
    }
    let mut all = [0; D];
    for place in 0..D {
        all[place] = coef[place];
    }
    Form::new(all, *cst)
}
