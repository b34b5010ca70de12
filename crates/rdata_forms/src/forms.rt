//! The fields of each type of data.

ghost use Rattle.std.specs.Prelude.{◌≡◌};
ghost use Rattle.dns_data.specs.Answers.{AnswersOr};
ghost use Rattle.rdata_forms.specs.Forms.{written, one_name, a_of, aaaa_of, ns_of, cname_of, ptr_of, dname_of, soa_of, hinfo_of, mx_of, txt_of, strings_of, srv_of, caa_of};

use crate::fault::RdataFault;
use crate::field::{
    boxed_name, boxed_string, boxed_tag, name_field, number_field, string_field, time_field,
};
use crate::ipv4::read_ipv4;
use crate::ipv6::read_ipv6;
use dns_data::{List, Name, Octets, Rdata};
use master_lex::TextToken;
use std::alloc::Global;

/// An IPv4 address (RFC 1035 section 3.4.1).
pub(crate) fn read_a(tokens: &[TextToken<'_>]) -> Result<Rdata, RdataFault>
    ensures { result ≡ a_of (written tokens.now) }
{
    let [address] = tokens else {
        return Err(RdataFault::FieldCount);
    };
    match read_ipv4(address.raw()) {
        Some(address) => Ok(Rdata::A(address)),
        None => Err(RdataFault::BadAddress),
    }
}

/// An IPv6 address (RFC 3596 section 2.4).
pub(crate) fn read_aaaa(tokens: &[TextToken<'_>]) -> Result<Rdata, RdataFault>
    ensures { result ≡ aaaa_of (written tokens.now) }
{
    let [address] = tokens else {
        return Err(RdataFault::FieldCount);
    };
    match read_ipv6(address.raw()) {
        Some(address) => Ok(Rdata::Aaaa(address)),
        None => Err(RdataFault::BadAddress),
    }
}

/// One name.
fn read_one_name(alloc: Global, tokens: &[TextToken<'_>], origin: &Name) -> Result<Name, RdataFault>
    ensures { AnswersOr RdataFault.NoMemory result (one_name origin.now (written tokens.now)) }
{
    let [name] = tokens else {
        return Err(RdataFault::FieldCount);
    };
    name_field(alloc, name, origin)
}

/// A name server (RFC 1035 section 3.3.11).
pub(crate) fn read_ns(
    alloc: Global,
    tokens: &[TextToken<'_>],
    origin: &Name,
) -> Result<Rdata, RdataFault>
    ensures { AnswersOr RdataFault.NoMemory result (ns_of origin.now (written tokens.now)) }
{
    Ok(Rdata::Ns(read_one_name(alloc, tokens, origin)?))
}

/// A canonical name (RFC 1035 section 3.3.1).
pub(crate) fn read_cname(
    alloc: Global,
    tokens: &[TextToken<'_>],
    origin: &Name,
) -> Result<Rdata, RdataFault>
    ensures { AnswersOr RdataFault.NoMemory result (cname_of origin.now (written tokens.now)) }
{
    Ok(Rdata::Cname(read_one_name(alloc, tokens, origin)?))
}

/// A pointer (RFC 1035 section 3.3.12).
pub(crate) fn read_ptr(
    alloc: Global,
    tokens: &[TextToken<'_>],
    origin: &Name,
) -> Result<Rdata, RdataFault>
    ensures { AnswersOr RdataFault.NoMemory result (ptr_of origin.now (written tokens.now)) }
{
    Ok(Rdata::Ptr(read_one_name(alloc, tokens, origin)?))
}

/// A redirection of a subtree (RFC 6672 section 2.1).
pub(crate) fn read_dname(
    alloc: Global,
    tokens: &[TextToken<'_>],
    origin: &Name,
) -> Result<Rdata, RdataFault>
    ensures { AnswersOr RdataFault.NoMemory result (dname_of origin.now (written tokens.now)) }
{
    Ok(Rdata::Dname(read_one_name(alloc, tokens, origin)?))
}

/// A start of authority: two names, a number and four times (RFC 1035 section 3.3.13).
pub(crate) fn read_soa(
    alloc: Global,
    tokens: &[TextToken<'_>],
    origin: &Name,
) -> Result<Rdata, RdataFault>
    ensures { AnswersOr RdataFault.NoMemory result (soa_of origin.now (written tokens.now)) }
{
    let [mname, rname, serial, refresh, retry, expire, minimum] = tokens else {
        return Err(RdataFault::FieldCount);
    };
    Ok(Rdata::Soa {
        mname: boxed_name(alloc, mname, origin)?,
        rname: boxed_name(alloc, rname, origin)?,
        serial: number_field(serial, u32::MAX)?,
        refresh: time_field(refresh)?,
        retry: time_field(retry)?,
        expire: time_field(expire)?,
        minimum: time_field(minimum)?,
    })
}

/// A processor and an operating system (RFC 1035 section 3.3.2).
pub(crate) fn read_hinfo(alloc: Global, tokens: &[TextToken<'_>]) -> Result<Rdata, RdataFault>
    ensures { AnswersOr RdataFault.NoMemory result (hinfo_of (written tokens.now)) }
{
    let [cpu, os] = tokens else {
        return Err(RdataFault::FieldCount);
    };
    Ok(Rdata::Hinfo {
        cpu: boxed_string(alloc, cpu, 255)?,
        os: boxed_string(alloc, os, 255)?,
    })
}

/// A mail exchange: a number and a name (RFC 1035 section 3.3.9).
pub(crate) fn read_mx(
    alloc: Global,
    tokens: &[TextToken<'_>],
    origin: &Name,
) -> Result<Rdata, RdataFault>
    ensures { AnswersOr RdataFault.NoMemory result (mx_of origin.now (written tokens.now)) }
{
    let [preference, exchange] = tokens else {
        return Err(RdataFault::FieldCount);
    };
    Ok(Rdata::Mx {
        preference: number_field(preference, 65535)? as u16,
        exchange: name_field(alloc, exchange, origin)?,
    })
}

/// One or more texts (RFC 1035 section 3.3.14).
pub(crate) fn read_txt(alloc: Global, tokens: &[TextToken<'_>]) -> Result<Rdata, RdataFault>
    ensures { AnswersOr RdataFault.NoMemory result (txt_of (written tokens.now)) }
{
    if tokens.is_empty() {
        return Err(RdataFault::FieldCount);
    }
    Ok(Rdata::Txt(read_strings(alloc, tokens)?))
}

/// Strings.
fn read_strings(alloc: Global, tokens: &[TextToken<'_>]) -> Result<List<Octets>, RdataFault>
    ensures { AnswersOr RdataFault.NoMemory result (strings_of (written tokens.now)) }
{
    let mut strings = Vec::with_capacity(alloc, tokens.len())?;
    for token in tokens {
        strings.push(string_field(alloc, token, 255)?)?;
    }
    Ok(List::from_vec(strings))
}

/// The place of a service: three numbers and a name (RFC 2782).
pub(crate) fn read_srv(
    alloc: Global,
    tokens: &[TextToken<'_>],
    origin: &Name,
) -> Result<Rdata, RdataFault>
    ensures { AnswersOr RdataFault.NoMemory result (srv_of origin.now (written tokens.now)) }
{
    let [priority, weight, port, target] = tokens else {
        return Err(RdataFault::FieldCount);
    };
    Ok(Rdata::Srv {
        priority: number_field(priority, 65535)? as u16,
        weight: number_field(weight, 65535)? as u16,
        port: number_field(port, 65535)? as u16,
        target: name_field(alloc, target, origin)?,
    })
}

/// Which authorities may issue certificates: a number, a tag and a string (RFC 8659 section 4.1).
pub(crate) fn read_caa(alloc: Global, tokens: &[TextToken<'_>]) -> Result<Rdata, RdataFault>
    ensures { AnswersOr RdataFault.NoMemory result (caa_of (written tokens.now)) }
{
    let [flags, tag, value] = tokens else {
        return Err(RdataFault::FieldCount);
    };
    Ok(Rdata::Caa {
        flags: number_field(flags, 255)? as u8,
        tag: boxed_tag(alloc, tag)?,
        value: boxed_string(alloc, value, 1024)?,
    })
}
