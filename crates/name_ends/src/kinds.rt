//! Kinds of ends.

ghost use Rattle.std.specs.Prelude.{◌≡◌};
ghost use Rattle.std.specs.List.{list_any};
ghost use Rattle.name_ends.specs.Asked.{some_kind};
ghost use Rattle.name_ends.specs.Ends.{is_kind, kind_number, kind_of};

use net_model::Leaf;
use plain_resolver::WalkEnd;

/// The kinds of ends of walks: data of the type, no data (RFC 2308 section 2.2), no such name (section 2.1), a server that
/// holds no zone for the name, a name server that isn't configured, one that doesn't serve the delegated zone (RFC 1912
/// section 2.8), one whose address can't be learnt, one rewrite more than is allowed, too long a name (RFC 6672 section
/// 2.2).
#[derive(Clone, Copy, Debug)]
pub enum EndKind {
    Answer,
    NoData,
    NxDomain,
    Outside,
    Unhosted,
    Lame,
    NoAddress,
    Limit,
    Overlong,
}

impl EndKind {
    /// The kind of an end.
    fn of(leaf: &Leaf) -> EndKind
        ensures { result ≡ kind_of leaf.now }
    {
        match leaf {
            Leaf::Answer(_) => EndKind::Answer,
            Leaf::NoData => EndKind::NoData,
            Leaf::NxDomain => EndKind::NxDomain,
            Leaf::Outside => EndKind::Outside,
            Leaf::Unhosted(_) => EndKind::Unhosted,
            Leaf::Lame(_) => EndKind::Lame,
            Leaf::NoAddress(_) => EndKind::NoAddress,
            Leaf::Limit(_) => EndKind::Limit,
            Leaf::Overlong(_) => EndKind::Overlong,
        }
    }

    /// The place of the kind among all, counted from 0.
    fn number(&self) -> u8
        ensures { result ≡ kind_number self.now }
    {
        match self {
            EndKind::Answer => 0,
            EndKind::NoData => 1,
            EndKind::NxDomain => 2,
            EndKind::Outside => 3,
            EndKind::Unhosted => 4,
            EndKind::Lame => 5,
            EndKind::NoAddress => 6,
            EndKind::Limit => 7,
            EndKind::Overlong => 8,
        }
    }
}

/// Whether some of the ends is of the kind.
pub(crate) fn some_kind(kind: EndKind, ends: &[WalkEnd]) -> bool
    ensures { result ≡ some_kind kind ends.now }
{
    ends.iter().any(|one| is_kind(kind, &one.leaf))
}

/// Whether the end is of the kind.
fn is_kind(kind: EndKind, leaf: &Leaf) -> bool
    ensures { result ≡ is_kind kind leaf.now }
{
    EndKind::of(leaf).number() == kind.number()
}

/// Whether some walk with these ends is rewritten.
pub(crate) fn some_rewritten(ends: &[WalkEnd]) -> bool
    ensures { result ≡ list_any (λ one. one.rewritten) ends.now }
{
    ends.iter().any(|one| one.rewritten)
}
