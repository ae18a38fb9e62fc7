//! Which records bytes are a journal of, by the records' texts.

ghost use Rattle.std.specs.Prelude.{◌≡◌, ◌∷◌, ◌++◌, [], true};
ghost use Rattle.change_journal.specs.Texts.{IsClosed};

/// What stands behind these texts, one after the other.
pub(crate) fn behind<'a>(texts: &[&[u8]], bytes: &'a [u8]) -> Option<&'a [u8]> {
    let mut rest = bytes;
    for text in texts {
        rest = rest.strip_prefix(*text)?;
    }
    Some(rest)
}

/// Whether a gate follows that isn't open.
pub(crate) fn is_shut(rest: &[u8]) -> bool
    ensures { result ≡ true → IsClosed [] rest.now }
{
    match rest.split_first() {
        Some((gate, _)) => *gate != 1,
        None => false,
    }
}

/// Whether bytes are a journal of the records with these texts. At most one byte is a journal of none.
pub(crate) fn is_journal(texts: &[&[u8]], bytes: &[u8]) -> bool {
    let is_new = texts.is_empty() && bytes.len() <= 1;
    is_new || behind(texts, bytes).is_some_and(is_shut)
}

/// Whether bytes are this text and a closed gate.
pub(crate) fn is_closed_behind(text: &[u8], bytes: &[u8]) -> bool
    ensures { result ≡ true → bytes.now ≡ text.now ++ 0 ∷ [] }
{
    match bytes.split_last() {
        Some((gate, front)) => *gate == 0 && front == text,
        None => false,
    }
}
