//! Records and their data.

ghost use Rattle.std.specs.Prelude.{◌≡◌, Some, IfOk};
ghost use Rattle.dns_data.specs.Rdata.{type_of_data};

use crate::boxed::Boxed;
use crate::list::List;
use crate::memory::NoMemory;
use crate::name::Name;
use crate::octets::Octets;
use crate::rr_type::RrType;
use std::alloc::Global;

/// A record's data. The names of the fields are those of the RFCs. Data are equal where their types are one and each
/// field is. Their order, in which the types come first, is one for searches alone. The fields of rare types stand in
/// memory of their own, so that a record takes 96 octets beside its long names and texts.
#[derive(Debug, PartialEq, Eq, PartialOrd, Ord, Drop)]
pub enum Rdata {
    /// An IPv4 address (RFC 1035 section 3.4.1).
    A([u8; 4]),
    /// A name server (RFC 1035 section 3.3.11).
    Ns(Name),
    /// The canonical name of an alias (RFC 1035 section 3.3.1).
    Cname(Name),
    /// The start of a zone of authority (RFC 1035 section 3.3.13). Times are in seconds.
    Soa {
        mname: Boxed<Name>,
        rname: Boxed<Name>,
        serial: u32,
        refresh: u32,
        retry: u32,
        expire: u32,
        minimum: u32,
    },
    /// A pointer to a name (RFC 1035 section 3.3.12).
    Ptr(Name),
    /// A host's processor and operating system (RFC 1035 section 3.3.2).
    Hinfo {
        cpu: Boxed<Octets>,
        os: Boxed<Octets>,
    },
    /// A mail exchange (RFC 1035 section 3.3.9).
    Mx {
        preference: u16,
        exchange: Name,
    },
    /// Texts (RFC 1035 section 3.3.14).
    Txt(List<Octets>),
    /// An IPv6 address (RFC 3596 section 2.2).
    Aaaa([u8; 16]),
    /// The place of a service (RFC 2782).
    Srv {
        priority: u16,
        weight: u16,
        port: u16,
        target: Name,
    },
    /// Where the names below the owner are redirected (RFC 6672 section 2.1).
    Dname(Name),
    /// Which authorities may issue certificates (RFC 8659 section 4.1).
    Caa {
        flags: u8,
        tag: Boxed<Octets>,
        value: Boxed<Octets>,
    },
    /// Data of any other type, under its word, as their tokens were written.
    Other {
        word: Boxed<Octets>,
        tokens: List<Octets>,
    },
}

/// A record of a zone with its TTL in seconds, and where it was read: the number of its file, counted from 0 in the
/// order in which the files of a zone were opened, and its line, counted from 1.
#[derive(Debug, Drop)]
pub struct Rr {
    pub owner: Name,
    pub ttl: u32,
    pub rdata: Rdata,
    pub file: u32,
    pub line: u32,
}

impl Rr {
    /// The record's type, or `None` where it is none of the twelve.
    pub fn rtype(&self) -> Option<RrType>
        ensures { result ≡ type_of_data self.now.rdata }
    {
        self.rdata.rtype()
    }

    /// An equal record.
    pub fn copy(&self, alloc: Global) -> Result<Rr, NoMemory>
        ensures { IfOk result (λ copy. copy ≡ self.now) }
    {
        Ok(Rr {
            owner: self.owner.copy(alloc)?,
            ttl: self.ttl,
            rdata: self.rdata.copy(alloc)?,
            file: self.file,
            line: self.line,
        })
    }
}

impl Rdata {
    /// The type of the data, or `None` where it is none of the twelve.
    pub fn rtype(&self) -> Option<RrType>
        ensures { result ≡ type_of_data self.now }
    {
        match self {
            Rdata::A(_) => Some(RrType::A),
            Rdata::Ns(_) => Some(RrType::Ns),
            Rdata::Cname(_) => Some(RrType::Cname),
            Rdata::Soa { .. } => Some(RrType::Soa),
            Rdata::Ptr(_) => Some(RrType::Ptr),
            Rdata::Hinfo { .. } => Some(RrType::Hinfo),
            Rdata::Mx { .. } => Some(RrType::Mx),
            Rdata::Txt(_) => Some(RrType::Txt),
            Rdata::Aaaa(_) => Some(RrType::Aaaa),
            Rdata::Srv { .. } => Some(RrType::Srv),
            Rdata::Dname(_) => Some(RrType::Dname),
            Rdata::Caa { .. } => Some(RrType::Caa),
            Rdata::Other { .. } => None,
        }
    }

    /// Equal data.
    pub fn copy(&self, alloc: Global) -> Result<Rdata, NoMemory>
        ensures { IfOk result (λ copy. copy ≡ self.now) }
    {
        match self {
            Rdata::A(address) => Ok(Rdata::A(*address)),
            Rdata::Ns(target) => Ok(Rdata::Ns(target.copy(alloc)?)),
            Rdata::Cname(target) => Ok(Rdata::Cname(target.copy(alloc)?)),
            Rdata::Soa { .. } => self.copy_soa(alloc),
            Rdata::Ptr(target) => Ok(Rdata::Ptr(target.copy(alloc)?)),
            Rdata::Hinfo { cpu, os } => Ok(Rdata::Hinfo {
                cpu: cpu.copy(alloc)?,
                os: os.copy(alloc)?,
            }),
            Rdata::Mx {
                preference,
                exchange,
            } => Ok(Rdata::Mx {
                preference: *preference,
                exchange: exchange.copy(alloc)?,
            }),
            Rdata::Txt(texts) => Ok(Rdata::Txt(texts.copy(alloc)?)),
            Rdata::Aaaa(address) => Ok(Rdata::Aaaa(*address)),
            Rdata::Srv { .. } => self.copy_srv(alloc),
            Rdata::Dname(target) => Ok(Rdata::Dname(target.copy(alloc)?)),
            Rdata::Caa { .. } => self.copy_caa(alloc),
            Rdata::Other { word, tokens } => Ok(Rdata::Other {
                word: word.copy(alloc)?,
                tokens: tokens.copy(alloc)?,
            }),
        }
    }

    /// An equal SOA record's data.
    fn copy_soa(&self, alloc: Global) -> Result<Rdata, NoMemory>
        requires { type_of_data self.now ≡ Some RrType.Soa }
        ensures { IfOk result (λ copy. copy ≡ self.now) }
    {
        let Rdata::Soa {
            mname,
            rname,
            serial,
            refresh,
            retry,
            expire,
            minimum,
        } = self
        else {
            unreachable!()
        };
        Ok(Rdata::Soa {
            mname: mname.copy(alloc)?,
            rname: rname.copy(alloc)?,
            serial: *serial,
            refresh: *refresh,
            retry: *retry,
            expire: *expire,
            minimum: *minimum,
        })
    }

    /// An equal SRV record's data.
    fn copy_srv(&self, alloc: Global) -> Result<Rdata, NoMemory>
        requires { type_of_data self.now ≡ Some RrType.Srv }
        ensures { IfOk result (λ copy. copy ≡ self.now) }
    {
        let Rdata::Srv {
            priority,
            weight,
            port,
            target,
        } = self
        else {
            unreachable!()
        };
        Ok(Rdata::Srv {
            priority: *priority,
            weight: *weight,
            port: *port,
            target: target.copy(alloc)?,
        })
    }

    /// An equal CAA record's data.
    fn copy_caa(&self, alloc: Global) -> Result<Rdata, NoMemory>
        requires { type_of_data self.now ≡ Some RrType.Caa }
        ensures { IfOk result (λ copy. copy ≡ self.now) }
    {
        let Rdata::Caa { flags, tag, value } = self else {
            unreachable!()
        };
        Ok(Rdata::Caa {
            flags: *flags,
            tag: tag.copy(alloc)?,
            value: value.copy(alloc)?,
        })
    }
}

/// Equal data, in their order.
pub fn copied_data(alloc: Global, items: &[Rdata]) -> Result<List<Rdata>, NoMemory>
    ensures { IfOk result (λ copies. copies ≡ items.now) }
{
    let mut copies = List::new(alloc);
    for rdata in items {
        copies.push(rdata.copy(alloc)?)?;
    }
    Ok(copies)
}
