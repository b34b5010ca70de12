//! A name with a label below it.

ghost use Rattle.std.specs.Prelude.{◌≡◌, ◌<◌, [], ◌∷◌, ◌++◌, MatchOption, IfOk, IfSome};
ghost use Rattle.dns_data.specs.Name.{IsName, wire_octets};

use dns_data::{JoinFault, Label, Name, NoMemory};
use std::alloc::Global;

/// The name with the label below, or `None` where that has more than 255 octets.
pub(crate) fn name_below(
    alloc: Global,
    above: &Name,
    label: &Label,
) -> Result<Option<Name>, NoMemory>
    ensures name { IfOk result (λ made. MatchOption made (255 < wire_octets (above.now ++ label.now ∷ [])) (λ name. name ≡ above.now ++ label.now ∷ [])) }
    ensures is_name { IfOk result (λ made. IfSome made IsName) }
{
    let mut name = above.copy(alloc)?;
    match name.push(alloc, label) {
        Ok(()) => {
            // The labels are read, so that it is known here that they are those of a name.
            let _ = name.labels();
            Ok(Some(name))
        }
        Err(JoinFault::TooLong) => Ok(None),
        Err(JoinFault::NoMemory) => Err(NoMemory),
    }
}
