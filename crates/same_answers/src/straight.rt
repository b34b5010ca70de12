//! Straight walks of a query in two configurations, and what they tell of it.

ghost use Rattle.std.specs.Prelude.{◌≡◌};
ghost use Rattle.same_answers.specs.Straight.{straight_end};

use crate::verdict::PairEnd;
use dns_data::RrType;
use straight_walks::StraightEnds;

/// The verdict of a class by what the walks of its representative end in, which go straight in both configurations:
/// the first type with which these outcomes differ, if they do with some.
pub(crate) fn straight_end(first: &StraightEnds<'_, '_>, second: &StraightEnds<'_, '_>) -> PairEnd
    ensures { result ≡ straight_end first.now second.now }
{
    for rtype in RrType::ALL.iter() {
        if !first.are_alike(second, *rtype) {
            return PairEnd::Apart(*rtype);
        }
    }
    PairEnd::Equal
}
