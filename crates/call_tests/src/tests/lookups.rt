//! What a zone answers to a name and a type. The program never asks for it: its walks go by what decides at a name.

use super::configs::{alone, first_zone, name};
use dns_data::{Name, NameFault, RrType};
use net_model::{Config, Found};
use std::alloc::Global;
use std::test::Fail;
use zone_lookup::find;
use zone_tree::Tree;

/// A zone with an address, a zone cut, an alias and a redirection.
const ANSWERING: &str =
    "t. 60 SOA ns.t. h.t. 1 2 3 4 5\na.t. 60 A 192.0.2.1\nb.t. 60 NS ns.b.t.\nc.t. 60 CNAME a.t.\nd.t. 60 DNAME a.t.\n";

// An address is an answer, a name below a zone cut is referred (RFC 1034 section 4.3.2), an alias and a name below the
// owner of a DNAME record are rewritten (RFC 6672 section 2.2), and a name that isn't there is none.
#[test]
fn a_zone_answers_by_what_decides(rt: HostRuntime) -> Result<(), Fail> {
    let config = alone(rt.alloc(), ANSWERING)?;
    let kinds = "a.t. answer, w.b.t. referral, c.t. rewrite, w.d.t. rewrite, w.t. none";
    for one in kinds.split(", ") {
        assert!(rt; is_answered(rt.alloc(), &config, one)?, "at {one:?}");
    }
    Ok(())
}

/// Whether the name in front of the space has an answer of type A of the kind behind it.
fn is_answered(alloc: Global, config: &Config, one: &str) -> Result<bool, NameFault> {
    match one.split_once(' ') {
        Some((query, kind)) => Ok(kind_at(alloc, config, &name(alloc, query)?)? == kind),
        None => Ok(false),
    }
}

/// The kind of what the first server's first zone answers to the name with type A.
fn kind_at(alloc: Global, config: &Config, query: &Name) -> Result<&'static str, NameFault> {
    let Some(zone) = first_zone(config) else {
        return Ok("no zone");
    };
    let tree = Tree::build(alloc, zone)?;
    if !tree.zone().origin.is_prefix_of(query) {
        return Ok("outside");
    }
    Ok(kind_of(&find(alloc, &tree, query, RrType::A)?))
}

/// The word for what a zone answers.
fn kind_of(found: &Found) -> &'static str {
    match found {
        Found::Answer(_) => "answer",
        Found::NoData => "no data",
        Found::NxDomain => "none",
        Found::Referral { .. } => "referral",
        Found::Rewrite { .. } => "rewrite",
        Found::TooLong { .. } => "too long",
    }
}
