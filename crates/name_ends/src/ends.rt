//! What is told of walks.

ghost use Rattle.std.specs.Prelude.{◌≡◌};
ghost use Rattle.name_ends.specs.Asked.{kinds_of};
ghost use Rattle.name_ends.specs.Ends.{is_alias, is_answered, is_dead, is_type_answered, is_type_dead, is_type_rewritten, only_dead};

use crate::kinds::{EndKind, some_kind, some_rewritten};
use plain_resolver::WalkEnd;

/// Of each kind of end whether some walk of a type ends so, and whether some walk is rewritten.
#[derive(Clone, Copy, Debug)]
pub struct TypeEnds {
    pub answer: bool,
    pub no_data: bool,
    pub no_name: bool,
    pub outside: bool,
    pub unhosted: bool,
    pub lame: bool,
    pub no_address: bool,
    pub limit: bool,
    pub overlong: bool,
    pub rewritten: bool,
}

/// How the walks of a name of type A and those of type AAAA end; `None` where there are more than are followed.
#[derive(Clone, Copy, Debug)]
pub struct NameEnds {
    pub four: Option<TypeEnds>,
    pub six: Option<TypeEnds>,
}

/// The kinds that some of these ends have.
pub(crate) fn kinds_of(ends: &[WalkEnd]) -> TypeEnds
    ensures { result ≡ kinds_of ends.now }
{
    TypeEnds {
        answer: some_kind(EndKind::Answer, ends),
        no_data: some_kind(EndKind::NoData, ends),
        no_name: some_kind(EndKind::NxDomain, ends),
        outside: some_kind(EndKind::Outside, ends),
        unhosted: some_kind(EndKind::Unhosted, ends),
        lame: some_kind(EndKind::Lame, ends),
        no_address: some_kind(EndKind::NoAddress, ends),
        limit: some_kind(EndKind::Limit, ends),
        overlong: some_kind(EndKind::Overlong, ends),
        rewritten: some_rewritten(ends),
    }
}

impl TypeEnds {
    /// Whether no walk ends otherwise than in no data or in no such name.
    pub fn only_dead(&self) -> bool
        ensures { result ≡ only_dead self.now }
    {
        !(self.answer
            || self.outside
            || self.unhosted
            || self.lame
            || self.no_address
            || self.limit
            || self.overlong)
    }
}

impl NameEnds {
    /// Whether the name is dead: each walk of both types ends in no data or in no such name, and there are no more than are
    /// followed.
    pub fn is_dead(&self) -> bool
        ensures { result ≡ is_dead self.now }
    {
        is_type_dead(&self.four) && is_type_dead(&self.six)
    }

    /// Whether some walk ends in an address.
    pub fn is_answered(&self) -> bool
        ensures { result ≡ is_answered self.now }
    {
        is_type_answered(&self.four) || is_type_answered(&self.six)
    }

    /// Whether the name is an alias: some walk is rewritten (RFC 2181 section 10.3).
    pub fn is_alias(&self) -> bool
        ensures { result ≡ is_alias self.now }
    {
        is_type_rewritten(&self.four) || is_type_rewritten(&self.six)
    }
}

/// Whether each walk of a type ends in no data or in no such name, and there are no more than are followed.
fn is_type_dead(ends: &Option<TypeEnds>) -> bool
    ensures { result ≡ is_type_dead ends.now }
{
    match ends {
        Some(ends) => ends.only_dead(),
        None => false,
    }
}

/// Whether some walk of a type ends in an answer.
fn is_type_answered(ends: &Option<TypeEnds>) -> bool
    ensures { result ≡ is_type_answered ends.now }
{
    match ends {
        Some(ends) => ends.answer,
        None => false,
    }
}

/// Whether some walk of a type is rewritten.
fn is_type_rewritten(ends: &Option<TypeEnds>) -> bool
    ensures { result ≡ is_type_rewritten ends.now }
{
    match ends {
        Some(ends) => ends.rewritten,
        None => false,
    }
}
