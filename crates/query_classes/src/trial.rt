//! The order in which labels are tried below a name.

ghost use Rattle.std.specs.Prelude.{◌≡◌, ◌≢◌, ◌++◌, true, replicate, IfOk, OnOk};
ghost use Rattle.std.specs.List.{list_all};
ghost use Rattle.dns_data.specs.Label.{is_label_octet};
ghost use Rattle.query_classes.specs.Trials.{AreNextOctets, IsOctetBehind, IsLastBut, IsNextLabel};

use dns_data::{Label, NoMemory};
use std::alloc::Global;

/// The label that is tried next after this one, or `None` after the last.
pub(crate) fn next_label(alloc: Global, label: &Label) -> Result<Option<Label>, NoMemory>
    ensures { IfOk result (IsNextLabel label.now) }
{
    let octets = label.items();
    let place = before_last(octets);
    if place == 0 && octets.len() == 63 {
        return Ok(None);
    }
    let next = next_octets(alloc, octets, place)?;
    Ok(Some(Label::with_octets(alloc, next.as_slice())?))
}

/// How many octets stand before those at the end that are the last to be tried.
fn before_last(octets: &[u8]) -> usize
    ensures { IsLastBut octets.now result }
{
    let mut place = octets.len();
    while place > 0 && octets[place - 1] == 255 {
        place -= 1;
    }
    place
}

/// The octets of the label that is tried next, where this many stand before those at the end that are the last.
fn next_octets(alloc: Global, octets: &[u8], place: usize) -> Result<Vec<u8>, NoMemory>
    requires last { IsLastBut octets.now place }
    requires octets { list_all is_label_octet octets.now ≡ true }
    ensures { IfOk result (λ next. AreNextOctets octets.now place next.items) }
{
    let mut next = Vec::new(alloc);
    if place == 0 {
        put_letters(&mut next, octets.len() + 1)?;
        return Ok(next);
    }
    next.extend_from_slice(&octets[..place - 1])?;
    next.push(octet_behind(octets[place - 1]))?;
    put_letters(&mut next, octets.len() - place)?;
    Ok(next)
}

/// Puts the letter that is tried first this many times at the end.
fn put_letters(octets: &mut Vec<u8>, count: usize) -> Result<(), NoMemory>
    ensures { OnOk result (octets.new.items ≡ octets.old.items ++ replicate count 97) }
{
    for _ in 0..count {
        octets.push(b'a')?;
    }
    Ok(())
}

/// The octet that is tried next.
fn octet_behind(octet: u8) -> u8
    requires octet { is_label_octet octet ≡ true }
    requires not_last { octet ≢ 255 }
    ensures { IsOctetBehind octet result }
{
    match octet {
        b'z' => b'0',
        b'9' => b'-',
        b'-' => b'_',
        b'_' => 0,
        44 => 46,
        47 => 58,
        64 => 91,
        94 => 96,
        96 => 123,
        _ => octet + 1,
    }
}
