//! Numbers in a text.

ghost use Rattle.std.specs.Prelude.{◌≡◌, ◌++◌, decimal, OnOk};

use dns_data::{NoMemory, Octets};
use itoa::Buffer;
use std::alloc::Global;

/// Puts a front and a number behind a text.
pub(crate) fn put_count(
    alloc: Global,
    text: &mut Octets,
    front: &[u8],
    number: u64,
) -> Result<(), NoMemory>
    ensures { OnOk result (text.new ≡ text.old ++ front.now ++ decimal number) }
{
    let mut digits = Buffer::new();
    text.extend_from_slice(alloc, front)?;
    text.extend_from_slice(alloc, digits.format(number).as_bytes())
}
