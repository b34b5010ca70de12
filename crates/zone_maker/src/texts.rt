//! The texts of a drill's files.

ghost use Rattle.std.specs.Prelude.{◌≡◌, ◌<◌, ◌≤◌, ◌++◌, IfOk, OnOk};
ghost use Rattle.std.specs.String.{string_bytes};
ghost use Rattle.zone_maker.specs.Drill.{address_end, meta_row, meta_text, delegation_line, server_line, referral_lines, root_text, soa_end, soa_line, web_line, alias_line, gone_line, made_zone_text, zone_file};

use dns_data::NoMemory;
use std::alloc::Global;
use std::fmt::Write;

/// The metadata of this many zones.
pub(crate) fn meta_text(alloc: Global, zones: u32) -> Result<String, NoMemory>
    ensures { IfOk result (λ text. string_bytes text ≡ meta_text zones) }
{
    let mut text = String::from_str(
        alloc,
        "{\"TopNameServers\":[\"a.top.\"],\"ZoneFiles\":[{\"FileName\":\"root.zone\",\"NameServer\":\"a.top.\"}",
    )?;
    for i in 0..zones {
        put_meta_row(&mut text, i)?;
    }
    text.push_str("]}")?;
    Ok(text)
}

/// Puts the row of a zone at the end.
fn put_meta_row(text: &mut String, i: u32) -> Result<(), NoMemory>
    ensures { OnOk result (string_bytes text.new ≡ string_bytes text.old ++ meta_row i) }
{
    write!(
        text,
        ",{{\"FileName\":\"z{i}.zone\",\"NameServer\":\"ns.z{i}.\"}}"
    )?;
    Ok(())
}

/// The root zone of this many zones.
pub(crate) fn root_text(alloc: Global, zones: u32) -> Result<String, NoMemory>
    ensures { IfOk result (λ text. string_bytes text ≡ root_text zones) }
{
    let mut text = String::from_str(
        alloc,
        "$TTL 60\n. SOA a.top. h.top. 1 2 3 4 5\n. NS a.top.\n",
    )?;
    for i in 0..zones {
        put_referral(&mut text, i)?;
    }
    Ok(text)
}

/// Puts the delegation of a zone and its glue at the end.
fn put_referral(text: &mut String, i: u32) -> Result<(), NoMemory>
    ensures { OnOk result (string_bytes text.new ≡ string_bytes text.old ++ referral_lines i) }
{
    put_delegation(text, i)?;
    put_server(text, 0, i)
}

/// The zone with this number, of this many.
pub(crate) fn made_zone_text(alloc: Global, zones: u32, i: u32) -> Result<String, NoMemory>
    requires within { i < zones }
    requires few { zones ≤ 5000 }
    ensures { IfOk result (λ text. string_bytes text ≡ made_zone_text zones i) }
{
    let mut text = String::from_str(alloc, "$TTL 60\n")?;
    put_soa(&mut text, i)?;
    put_delegation(&mut text, i)?;
    put_server(&mut text, if i % 10 == 7 { 2 } else { 0 }, i)?;
    put_web(&mut text, i)?;
    put_alias(&mut text, i, if i + 1 < zones { i + 1 } else { 0 })?;
    put_gone(&mut text, i)?;
    Ok(text)
}

/// Puts the start of authority of a zone at the end.
fn put_soa(text: &mut String, i: u32) -> Result<(), NoMemory>
    ensures { OnOk result (string_bytes text.new ≡ string_bytes text.old ++ soa_line i) }
{
    write!(text, "z{i}. SOA ns.z{i}")?;
    put_soa_end(text, i)
}

/// Puts the mailbox and the numbers of a zone's start of authority at the end.
fn put_soa_end(text: &mut String, i: u32) -> Result<(), NoMemory>
    ensures { OnOk result (string_bytes text.new ≡ string_bytes text.old ++ soa_end i) }
{
    write!(text, ". h.z{i}. 1 2 3 4 5\n")?;
    Ok(())
}

/// Puts the name server of a zone at the end.
fn put_delegation(text: &mut String, i: u32) -> Result<(), NoMemory>
    ensures { OnOk result (string_bytes text.new ≡ string_bytes text.old ++ delegation_line i) }
{
    write!(text, "z{i}. NS ns.z{i}.\n")?;
    Ok(())
}

/// Puts the address of a zone's name server at the end.
fn put_server(text: &mut String, network: u32, i: u32) -> Result<(), NoMemory>
    ensures { OnOk result (string_bytes text.new ≡ string_bytes text.old ++ server_line network i) }
{
    write!(text, "ns.z{i}")?;
    put_address_end(text, network, i)
}

/// Puts the address of a zone's web server at the end.
fn put_web(text: &mut String, i: u32) -> Result<(), NoMemory>
    ensures { OnOk result (string_bytes text.new ≡ string_bytes text.old ++ web_line i) }
{
    write!(text, "www.z{i}")?;
    put_address_end(text, 1, i)
}

/// Puts the address of a zone in one of the networks at the end.
fn put_address_end(text: &mut String, network: u32, i: u32) -> Result<(), NoMemory>
    ensures { OnOk result (string_bytes text.new ≡ string_bytes text.old ++ address_end network i) }
{
    let high = i / 256;
    let low = i % 256;
    write!(text, ". A 10.{network}.{high}.{low}\n")?;
    Ok(())
}

/// Puts the alias of a zone into another one at the end.
fn put_alias(text: &mut String, i: u32, to: u32) -> Result<(), NoMemory>
    ensures { OnOk result (string_bytes text.new ≡ string_bytes text.old ++ alias_line i to) }
{
    write!(text, "alias.z{i}. CNAME www.z{to}.\n")?;
    Ok(())
}

/// Puts the alias to a name that doesn't exist at the end, where the zone has one.
fn put_gone(text: &mut String, i: u32) -> Result<(), NoMemory>
    ensures { OnOk result (string_bytes text.new ≡ string_bytes text.old ++ gone_line i) }
{
    if i % 10 == 3 {
        write!(text, "gone.z{i}. CNAME none.z{i}.\n")?;
    }
    Ok(())
}

/// The name of a zone's file.
pub(crate) fn zone_name(alloc: Global, i: u32) -> Result<String, NoMemory>
    ensures { IfOk result (λ name. string_bytes name ≡ zone_file i) }
{
    let mut name = String::new(alloc);
    write!(name, "z{i}.zone")?;
    Ok(name)
}
