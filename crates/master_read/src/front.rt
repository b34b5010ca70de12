//! What stands in front of a record's type.

ghost use Rattle.std.specs.Prelude.{◌≡◌, Ok, Err, MatchResult};
ghost use Rattle.master_read.specs.Entries.{begins_with_digit, one_more, front_in};

use crate::fault::TextCause;
use crate::words::{ClassWord, class_word};
use master_lex::TextToken;
use rdata_forms::read_ttl;

/// What stood in front of a record's type so far, behind the owner.
#[derive(Clone, Copy, Debug)]
pub(crate) struct Front<'t, 'a> {
    /// The TTL, in seconds.
    pub ttl: Option<u32>,
    /// Whether the class stood there.
    pub has_class: bool,
    /// The tokens from there on.
    pub tokens: &'t [TextToken<'a>],
}

/// What stands in front of the type: a TTL and a class, in either order, each at most once.
#[tactic(auto, unfolding(crate::specs::Entries::front_in))]
pub(crate) fn read_front<'t, 'a>(tokens: &'t [TextToken<'a>]) -> Result<Front<'t, 'a>, TextCause>
    ensures { MatchResult result
        (λ front. front_in tokens.now ≡ Ok (record { ttl = front.ttl; class = front.has_class; tokens = front.tokens.now }))
        (λ cause. front_in tokens.now ≡ Err cause) }
{
    let front = one_more(Front {
        ttl: None,
        has_class: false,
        tokens,
    })?;
    one_more(front)
}

/// What stood in front so far with the next token, if that is a TTL or a class and none such stood there.
#[tactic(auto, unfolding(crate::specs::Entries::one_more))]
fn one_more<'t, 'a>(front: Front<'t, 'a>) -> Result<Front<'t, 'a>, TextCause>
    ensures { MatchResult result
        (λ more. one_more (record { ttl = front.entry.ttl; class = front.entry.has_class; tokens = front.entry.tokens.now })
        ≡ Ok (record { ttl = more.ttl; class = more.has_class; tokens = more.tokens.now }))
        (λ cause. one_more (record { ttl = front.entry.ttl; class = front.entry.has_class; tokens = front.entry.tokens.now }) ≡ Err cause) }
{
    let [token, tokens @ ..] = front.tokens else {
        return Ok(front);
    };
    if token.is_quoted() {
        return Ok(front);
    }
    let word = token.raw();
    if front.ttl.is_none() && begins_with_digit(word) {
        return match read_ttl(word) {
            Some(ttl) => Ok(Front {
                ttl: Some(ttl),
                has_class: front.has_class,
                tokens,
            }),
            None => Err(TextCause::BadTtl),
        };
    }
    if front.has_class {
        return Ok(front);
    }
    match class_word(word) {
        Some(ClassWord::In) => Ok(Front {
            ttl: front.ttl,
            has_class: true,
            tokens,
        }),
        Some(ClassWord::NotIn) => Err(TextCause::NotIn),
        None => Ok(front),
    }
}

/// Whether the first octet is a digit.
fn begins_with_digit(octets: &[u8]) -> bool
    ensures { result ≡ begins_with_digit octets.now }
{
    match octets {
        [] => false,
        [octet, ..] => octet.is_ascii_digit(),
    }
}
