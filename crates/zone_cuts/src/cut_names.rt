//! The zone cuts of a zone.

ghost use Rattle.std.specs.Prelude.{◌≡◌, ◌&&◌, true};
ghost use Rattle.dns_data.specs.Name.{is_prefix};
ghost use Rattle.net_model.specs.Lookup.{deciding};
ghost use Rattle.net_model.specs.Zone.{has_address};
ghost use Rattle.zone_cuts.specs.Cuts.{cuts_at, has_servers, is_cut, is_glued, refers};

use dns_data::Name;
use zone_lookup::{Reply, has_glue_below, reply_in};
use zone_tree::Tree;

/// Whether the name is a zone cut that a query meets.
pub fn is_cut(tree: &Tree<'_>, name: &Name) -> bool
    ensures { result ≡ is_cut tree.now.zone name.now }
{
    tree.zone().origin.is_prefix_of(name) && is_cut_below(tree, name)
}

/// Whether the name, which is at or below the origin, is a zone cut that a query meets.
fn is_cut_below(tree: &Tree<'_>, name: &Name) -> bool
    requires { is_prefix tree.now.zone.origin name.now ≡ true }
    ensures { result ≡ cuts_at name.now (deciding tree.now.zone name.now) }
{
    match reply_in(tree, name) {
        Reply::Refers(tree, cut) => *tree.name(cut) == *name,
        _ => false,
    }
}

/// Whether the NS records of the name are looked at: it is the origin or a zone cut.
pub fn has_servers(tree: &Tree<'_>, name: &Name) -> bool
    ensures { result ≡ has_servers tree.now.zone name.now }
{
    *name == tree.zone().origin || is_cut(tree, name)
}

/// Whether the name is below a zone cut or is one, and the zone holds an address of it (RFC 1034 section 4.2.1).
pub fn is_glued(tree: &Tree<'_>, name: &Name) -> bool
    ensures { result ≡ is_glued tree.now.zone name.now }
{
    tree.zone().origin.is_prefix_of(name) && is_glued_below(tree, name)
}

/// Whether the name, which is at or below the origin, is below a zone cut or is one, and the zone holds an address of it.
fn is_glued_below(tree: &Tree<'_>, name: &Name) -> bool
    requires { is_prefix tree.now.zone.origin name.now ≡ true }
    ensures { result ≡ (refers (deciding tree.now.zone name.now) && has_address tree.now.zone name.now) }
{
    match reply_in(tree, name) {
        Reply::Refers(tree, cut) => has_glue_below(tree, cut, name),
        _ => false,
    }
}
