//! Lines and their words.

ghost use Rattle.std.specs.Prelude.{◌≡◌, ◌<◌, ◌==◌, [], ◌∷◌, length, IfSome, option_map};
ghost use Rattle.std.specs.List.{position};
ghost use Rattle.std.specs.Option.{option_map_or};
ghost use Rattle.part_names.specs.PartNames.{lines_of, word_in};

/// What a line tells its name to be.
#[derive(Clone, Copy, Debug)]
pub(crate) enum NameWord {
    From,
    To,
    Keep,
    Away,
}

/// The first line of a text, without the line feed that ends it, and what stands behind that, or `None` where no line feed
/// ends the line.
pub(crate) fn first_line(text: &[u8]) -> (&[u8], Option<&[u8]>)
    ensures lines { lines_of text.now ≡ result.0.now ∷ option_map_or (λ rest. lines_of rest.now) result.1 [] }
    ensures shorter { IfSome result.1 (λ rest. length rest.now < length text.now) }
{
    match line_end(text) {
        Some(at) => (&text[..at], Some(&text[at + 1..])),
        None => (text, None),
    }
}

/// Where the first line feed stands.
fn line_end(text: &[u8]) -> Option<usize>
    ensures { result ≡ position (λ octet. octet == 10) text.now }
{
    text.iter().position(|octet| *octet == b'\n')
}

/// The word of a line, and the text behind the space that follows it.
pub(crate) fn word_in(line: &[u8]) -> Option<(NameWord, &[u8])>
    ensures { option_map (λ named. (named.0, named.1.now)) result ≡ word_in line.now }
{
    if let Some(text) = line.strip_prefix(b"from ") {
        return Some((NameWord::From, text));
    }
    if let Some(text) = line.strip_prefix(b"to ") {
        return Some((NameWord::To, text));
    }
    if let Some(text) = line.strip_prefix(b"keep ") {
        return Some((NameWord::Keep, text));
    }
    if let Some(text) = line.strip_prefix(b"away ") {
        return Some((NameWord::Away, text));
    }
    None
}
