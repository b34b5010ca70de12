//! Pieces of a text between separators.

ghost use Rattle.std.specs.Prelude.{◌≡◌, ◌<◌, ◌==◌, [], ◌∷◌, length, IfSome};
ghost use Rattle.std.specs.List.{position};
ghost use Rattle.std.specs.Option.{option_map_or};
ghost use Rattle.rdata_forms.specs.Addresses.{split_on};

/// The text before the first separator, and what stands behind it, or `None` where there is no separator.
pub(crate) fn first_piece(text: &[u8], separator: u8) -> (&[u8], Option<&[u8]>)
    ensures pieces { split_on separator text.now ≡ result.0.now ∷ option_map_or (λ rest. split_on separator rest.now) result.1 [] }
    ensures shorter { IfSome result.1 (λ rest. length rest.now < length text.now) }
{
    match place_of(text, separator) {
        Some(at) => (&text[..at], Some(&text[at + 1..])),
        None => (text, None),
    }
}

/// Where the first separator stands.
fn place_of(text: &[u8], separator: u8) -> Option<usize>
    ensures { result ≡ position (λ octet. octet == separator) text.now }
{
    text.iter().position(|octet| *octet == separator)
}
