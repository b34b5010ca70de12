//! Why records are no zone.

ghost use Rattle.std.specs.Prelude.{◌≡◌};
ghost use Rattle.zone_rules.specs.Codes.{rule_code};
ghost use Rattle.zone_rules.specs.declared.fault.RuleFault.TheVariants as rule_fault;

use dns_data::WantOfMemory;
use thiserror::Error;

/// Which rule of a zone is broken.
#[derive(Clone, Copy, Debug, PartialEq, Eq, Error)]
pub enum RuleCause {
    /// No SOA record is there (RFC 1035 section 5.2).
    #[error("no SOA record")]
    NoSoa,
    /// A second SOA record (RFC 1035 section 5.2).
    #[error("a second SOA record")]
    TwoSoas,
    /// An SOA record that isn't at the origin (RFC 1035 section 5.2).
    #[error("an SOA record below the origin")]
    SoaElsewhere,
    /// A CNAME record and one of another type have one owner (RFC 1034 section 3.6.2).
    #[error("a CNAME record beside another type")]
    CnameAndOther,
    /// A second CNAME record of an owner (RFC 2181 section 10.1).
    #[error("a second CNAME record")]
    TwoCnames,
    /// A second DNAME record of an owner (RFC 6672 section 2.4).
    #[error("a second DNAME record")]
    TwoDnames,
    /// An NS or DNAME record of a wildcard. RFC 4592 section 4.2 only discourages the NS record; this profile refuses it
    /// (RFC 4592 sections 4.2 and 4.4).
    #[error("an NS or DNAME record of a wildcard")]
    StarRecord,
    /// The origin is a wildcard. This profile refuses it; RFC 4592 section 4.1 lets it stand.
    #[error("the origin is a wildcard")]
    StarOrigin,
}

/// Why records are no zone.
#[derive(Clone, Copy, Debug, PartialEq, Eq, Error)]
pub enum RuleFault {
    /// A rule is broken.
    #[error("file {file}, line {line}: {cause}")]
    At {
        /// The number of the file in which the record stands, 0 for the first and where there is no record.
        file: u32,
        /// The record's line, counted from 1, or 0 where there is no record.
        line: u32,
        /// The rule.
        cause: RuleCause,
    },
    /// Memory ran out.
    #[error("no memory")]
    NoMemory,
}

impl RuleCause {
    /// The code of the rule, a word that is printed.
    pub fn code(&self) -> &'static str
        ensures { result.now ≡ rule_code self.now }
    {
        match self {
            RuleCause::NoSoa => "no-soa",
            RuleCause::TwoSoas => "two-soas",
            RuleCause::SoaElsewhere => "soa-elsewhere",
            RuleCause::CnameAndOther => "cname-and-other",
            RuleCause::TwoCnames => "two-cnames",
            RuleCause::TwoDnames => "two-dnames",
            RuleCause::StarRecord => "star-record",
            RuleCause::StarOrigin => "star-origin",
        }
    }
}

impl<E: WantOfMemory + Drop> From<E> for RuleFault {
    ghost from_gives = { λ _ fault. fault ≡ rule_fault.NoMemory };

    fn from(_fault: E) -> RuleFault {
        RuleFault::NoMemory
    }
}
