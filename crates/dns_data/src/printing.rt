//! The texts of record data.

ghost use Rattle.std.specs.Prelude.{◌≡◌, ◌+◌, ◌*◌, ◌++◌, false, Some, codes, map, IfOk, OnOk, IsSome};
ghost use Rattle.std.specs.Fmt.{decimal, digits};
ghost use Rattle.std.specs.String.{string_bytes};
ghost use Rattle.dns_data.specs.DataText.{data_text, separated, groups, string_octet_text, plain, quoted};
ghost use Rattle.dns_data.specs.Rdata.{type_of_data};
ghost use Rattle.dns_data.specs.Spelling.{name_text};

use crate::memory::NoMemory;
use crate::name::Name;
use crate::octets::Octets;
use crate::rdata::Rdata;
use crate::rr_type::RrType;
use crate::to_text::push_octet;
use std::alloc::Global;
use std::fmt::Write;

/// The text of data of one of the twelve types (RFC 1035 section 5.1, RFC 3596 section 2.4, RFC 8659
/// section 4.1.1). An IPv6 address has its eight groups.
pub fn rdata_text(alloc: Global, rdata: &Rdata) -> Result<String, NoMemory>
    requires { IsSome (type_of_data rdata.now) }
    ensures { IfOk result (λ text. string_bytes text ≡ data_text rdata.now) }
{
    match rdata {
        Rdata::A(address) => address_text(alloc, *address),
        Rdata::Ns(target) => target.to_text(alloc),
        Rdata::Cname(target) => target.to_text(alloc),
        Rdata::Soa { .. } => soa_text(alloc, rdata),
        Rdata::Ptr(target) => target.to_text(alloc),
        Rdata::Hinfo { cpu, os } => hinfo_text(alloc, cpu.get(), os.get()),
        Rdata::Mx {
            preference,
            exchange,
        } => mx_text(alloc, *preference, exchange),
        Rdata::Txt(texts) => texts_text(alloc, texts.items()),
        Rdata::Aaaa(address) => groups_text(alloc, address),
        Rdata::Srv {
            priority,
            weight,
            port,
            target,
        } => { srv_text(alloc, *priority, *weight, *port, target) }
        Rdata::Dname(target) => target.to_text(alloc),
        Rdata::Caa { flags, tag, value } => caa_text(alloc, *flags, tag.get(), value.get()),
        Rdata::Other { .. } => unreachable!(),
    }
}

/// The text of an IPv4 address.
fn address_text(alloc: Global, address: [u8; 4]) -> Result<String, NoMemory>
    ensures { IfOk result (λ text. string_bytes text ≡ data_text (Rdata.A address)) }
{
    let [a, b, c, d] = address;
    Ok(format!(in alloc; "{a}.{b}.{c}.{d}")?)
}

/// The text of a start of authority.
fn soa_text(alloc: Global, rdata: &Rdata) -> Result<String, NoMemory>
    requires { type_of_data rdata.now ≡ Some RrType.Soa }
    ensures { IfOk result (λ text. string_bytes text ≡ data_text rdata.now) }
{
    let Rdata::Soa {
        mname,
        rname,
        serial,
        refresh,
        retry,
        expire,
        minimum,
    } = rdata
    else {
        unreachable!()
    };
    let mut text = mname.get().to_text(alloc)?;
    push_name(alloc, &mut text, rname.get())?;
    push_number(&mut text, *serial)?;
    push_number(&mut text, *refresh)?;
    push_number(&mut text, *retry)?;
    push_number(&mut text, *expire)?;
    push_number(&mut text, *minimum)?;
    Ok(text)
}

/// The text of a mail exchange.
fn mx_text(alloc: Global, preference: u16, exchange: &Name) -> Result<String, NoMemory>
    ensures { IfOk result (λ text. string_bytes text ≡ data_text (Rdata.Mx preference exchange.now)) }
{
    let mut text = preference.to_string(alloc)?;
    push_name(alloc, &mut text, exchange)?;
    Ok(text)
}

/// The text of the place of a service.
fn srv_text(
    alloc: Global,
    priority: u16,
    weight: u16,
    port: u16,
    target: &Name,
) -> Result<String, NoMemory>
    ensures { IfOk result (λ text. string_bytes text ≡ data_text (Rdata.Srv priority weight port target.now)) }
{
    let mut text = priority.to_string(alloc)?;
    push_number(&mut text, u32::from(weight))?;
    push_number(&mut text, u32::from(port))?;
    push_name(alloc, &mut text, target)?;
    Ok(text)
}

/// The text of a host's processor and operating system.
fn hinfo_text(alloc: Global, cpu: &Octets, os: &Octets) -> Result<String, NoMemory>
    ensures { IfOk result (λ text. string_bytes text ≡ data_text (Rdata.Hinfo cpu.now os.now)) }
{
    let mut text = String::new(alloc);
    push_quoted(&mut text, cpu.items())?;
    text.push(' ')?;
    push_quoted(&mut text, os.items())?;
    Ok(text)
}

/// Texts in quotes, with a space between.
fn texts_text(alloc: Global, texts: &[Octets]) -> Result<String, NoMemory>
    ensures { IfOk result (λ text. string_bytes text ≡ separated (codes " ") (map quoted texts.now)) }
{
    let mut text = String::new(alloc);
    for (i, octets) in texts.iter().enumerate() {
        if i > 0 {
            text.push(' ')?;
        }
        push_quoted(&mut text, octets.items())?;
    }
    Ok(text)
}

/// The text of flags, a tag and a value.
fn caa_text(alloc: Global, flags: u8, tag: &Octets, value: &Octets) -> Result<String, NoMemory>
    ensures { IfOk result (λ text. string_bytes text ≡ data_text (Rdata.Caa flags tag.now value.now)) }
{
    let mut text = flags.to_string(alloc)?;
    text.push(' ')?;
    push_plain(&mut text, tag.items())?;
    text.push(' ')?;
    push_quoted(&mut text, value.items())?;
    Ok(text)
}

/// The eight groups of an IPv6 address, in lower-case hexadecimal without leading zeros.
fn groups_text(alloc: Global, address: &[u8; 16]) -> Result<String, NoMemory>
    ensures { IfOk result (λ text. string_bytes text ≡ separated (codes ":") (groups address.now)) }
{
    let mut text = String::new(alloc);
    for place in 0..8 {
        if place > 0 {
            text.push(':')?;
        }
        push_group(&mut text, address[2 * place], address[2 * place + 1])?;
    }
    Ok(text)
}

/// Puts the digits of a group of two octets at the end.
fn push_group(text: &mut String, high: u8, low: u8) -> Result<(), NoMemory>
    ensures { OnOk result (string_bytes text.new ≡ string_bytes text.old ++ digits 16 false (high * 256 + low)) }
{
    let group = u16::from_be_bytes([high, low]);
    write!(text, "{group:x}")?;
    Ok(())
}

/// Puts a space and a number at the end.
fn push_number(text: &mut String, number: u32) -> Result<(), NoMemory>
    ensures { OnOk result (string_bytes text.new ≡ string_bytes text.old ++ (codes " " ++ decimal number)) }
{
    write!(text, " {number}")?;
    Ok(())
}

/// Puts a space and a name's text at the end.
fn push_name(alloc: Global, text: &mut String, name: &Name) -> Result<(), NoMemory>
    ensures { OnOk result (string_bytes text.new ≡ string_bytes text.old ++ (codes " " ++ name_text name.now)) }
{
    let name = name.to_text(alloc)?;
    text.push(' ')?;
    text.push_str(name.as_str())?;
    Ok(())
}

/// Puts a string in its quotes at the end.
fn push_quoted(text: &mut String, octets: &[u8]) -> Result<(), NoMemory>
    ensures { OnOk result (string_bytes text.new ≡ string_bytes text.old ++ quoted octets.now) }
{
    text.push('"')?;
    push_plain(text, octets)?;
    text.push('"')?;
    Ok(())
}

/// Puts a string without quotes at the end.
fn push_plain(text: &mut String, octets: &[u8]) -> Result<(), NoMemory>
    ensures { OnOk result (string_bytes text.new ≡ string_bytes text.old ++ plain octets.now) }
{
    for octet in octets {
        push_string_octet(text, *octet)?;
    }
    Ok(())
}

/// Puts an octet of a string at the end.
fn push_string_octet(text: &mut String, octet: u8) -> Result<(), NoMemory>
    ensures { OnOk result (string_bytes text.new ≡ string_bytes text.old ++ string_octet_text octet) }
{
    push_octet(
        text,
        octet,
        octet == b'"' || octet == b'\\',
        (b' '..=b'~').contains(&octet),
    )
}
