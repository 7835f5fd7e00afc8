//! Words that are nearly the same, letters of either case aside.

// What is left of two words behind the letters that they begin with both.
fn behind_same<'a>(a: &'a [u8], b: &'a [u8]) -> (&'a [u8], &'a [u8]) {
    let mut n = 0;
    while n < a.len() && n < b.len() && a[n].eq_ignore_ascii_case(&b[n]) {
        n += 1;
    }
    (&a[n..], &b[n..])
}

// Whether the words, which begin differently, differ by one letter or by two that are swapped.
fn differ_little(a: &[u8], b: &[u8]) -> bool {
    if let ([a0, a1, a_rest @ ..], [b0, b1, b_rest @ ..]) = (a, b) {
        let is_swap = a0.eq_ignore_ascii_case(b1) && a1.eq_ignore_ascii_case(b0);
        if is_swap && a_rest.eq_ignore_ascii_case(b_rest) {
            return true;
        }
    }
    match (a, b) {
        ([_, a_rest @ ..], [_, b_rest @ ..]) => {
            a_rest.eq_ignore_ascii_case(b_rest)
                || a_rest.eq_ignore_ascii_case(b)
                || a.eq_ignore_ascii_case(b_rest)
        }
        ([_], []) | ([], [_]) => true,
        _ => false,
    }
}

/// Whether two words are not the same, and differ by one letter, by two that are swapped, or by what one of them, which
/// has three letters at least, has behind the other.
pub fn is_near(a: &[u8], b: &[u8]) -> bool {
    let (a_rest, b_rest) = behind_same(a, b);
    if a_rest.is_empty() && b_rest.is_empty() {
        return false;
    }
    let is_front = (a_rest.is_empty() && a.len() >= 3) || (b_rest.is_empty() && b.len() >= 3);
    is_front || differ_little(a_rest, b_rest)
}

/// The first of the words that is nearly the same.
pub fn nearest(word: &[u8], known: &'static [&'static str]) -> Option<&'static str> {
    for other in known {
        if is_near(word, other.as_bytes()) {
            return Some(*other);
        }
    }
    None
}
