//! Words before and behind `=`.

ghost use Rattle.std.specs.Prelude.{◌≡◌, option_map};
ghost use Rattle.pth_spelling.specs.Texts.{texts};
ghost use Rattle.pth_transcript.specs.Parted.{is_equals, parted};

fn is_equals(word: &[u8]) -> bool
    ensures { result ≡ is_equals word.now }
{
    word == b"=".as_slice()
}

/// The words before the first `=`, and those behind it.
pub fn at_equals<'a>(words: &'a [&'a [u8]]) -> Option<(&'a [&'a [u8]], &'a [&'a [u8]])>
    ensures { option_map (λ p. (texts p.0.now, texts p.1.now)) result ≡ parted (texts words.now) }
{
    let at = words.iter().position(|word| is_equals(word))?;
    Some((&words[..at], &words[at + 1..]))
}
