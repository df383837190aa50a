//! The words behind a verb, where there are as many as its form has.
ghost use Rattle.std.specs.Prelude.{◌≡◌, Some, None, [], true, false, IfSome, IfNone};
ghost use Rattle.uhura_line.specs.Reader.{next_three, next_five};

use uhura_text::Words;

/// Whether there is no word.
pub fn is_end(mut words: Words<'_>) -> bool
    ensures yes { result ≡ true → words.entry ≡ [] }
    ensures no { result ≡ false → words.entry ≡ [] → ⊥ }
{
    words.next().is_none()
}

/// The next three words.
pub fn next_three<'a>(words: &mut Words<'a>) -> Option<(&'a [u8], &'a [u8], &'a [u8])>
    ensures none { IfNone result (next_three words.old ≡ None) }
    ensures some { IfSome result (λ w.
        next_three words.old ≡ Some (w.0.now, w.1.now, w.2.now, words.new)) }
{
    let first = words.next()?;
    let second = words.next()?;
    let third = words.next()?;
    Some((first, second, third))
}

/// The next five words.
pub(crate) fn next_five<'a>(
    words: &mut Words<'a>,
) -> Option<(&'a [u8], &'a [u8], &'a [u8], &'a [u8], &'a [u8])>
    ensures none { IfNone result (next_five words.old ≡ None) }
    ensures some { IfSome result (λ w.
        next_five words.old ≡ Some (w.0.now, w.1.now, w.2.now, w.3.now, w.4.now, words.new)) }
{
    let first = words.next()?;
    let second = words.next()?;
    let third = words.next()?;
    let fourth = words.next()?;
    let fifth = words.next()?;
    Some((first, second, third, fourth, fifth))
}
