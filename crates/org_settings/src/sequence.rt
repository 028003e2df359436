//! The words of one keyword line.
ghost use Rattle.std.specs.Prelude.{◌≡◌, ◌≤◌, ◌==◌, not, length};
ghost use Rattle.std.specs.List.{prefix_len};
ghost use Rattle.org_settings.specs.Keywords.{is_bar, without_parens, is_named, bar_place, named_until, done_from};
ghost use Rattle.org_base.specs.Results.{lent_in};

fn is_bar(word: &[u8]) -> bool
    ensures value { result ≡ is_bar word.now }
{
    word == b"|".as_slice()
}

fn before_paren(word: &[u8]) -> usize
    ensures within { result ≤ length word.now }
    ensures value { result ≡ prefix_len (λ b. not (b == 40)) word.now }
{
    word.iter().take_while(|b| **b != b'(').count()
}

// The word without what stands from its first `(` on, if it ends in `)`.
pub(crate) fn without_parens(word: &[u8]) -> &[u8]
    ensures value { result.now ≡ without_parens word.now }
{
    let n = word.len();
    if n > 0 && word[n - 1] == b')' {
        let end = before_paren(word);
        &word[..end]
    } else {
        word
    }
}

// Whether a keyword is left of the word.
pub(crate) fn is_named(word: &[u8]) -> bool
    ensures value { result ≡ is_named word.now }
{
    let left = without_parens(word);
    !(left.is_empty() || is_bar(left))
}

fn bar_place(words: &[&[u8]]) -> usize
    ensures within { result ≤ length words.now }
    ensures value { result ≡ bar_place (lent_in words.now) }
{
    for (i, word) in words.iter().enumerate() {
        if is_bar(word) {
            return i;
        }
    }
    words.len()
}

fn named_until(words: &[&[u8]]) -> usize
    ensures within { result ≤ length words.now }
    ensures value { result ≡ named_until (lent_in words.now) }
{
    let mut until = 0;
    for (i, word) in words.iter().enumerate() {
        if is_named(word) {
            until = i + 1;
        }
    }
    until
}

// The place from which on the line's keywords are done.
pub(crate) fn done_from(words: &[&[u8]]) -> usize
    ensures within { result ≤ length words.now }
    ensures value { result ≡ done_from (lent_in words.now) }
{
    let bar = bar_place(words);
    if bar < words.len() {
        bar
    } else {
        named_until(words).saturating_sub(1)
    }
}
