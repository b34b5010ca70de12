//! The DS records of a row's zone by their owners, and those of a zone cut.

ghost use Rattle.std.specs.Prelude.{◌≡◌, map, IfOk};
ghost use Rattle.map_run.specs.Chain.{ds_records, is_ds_at, signed_cut};
ghost use Rattle.map_run.specs.NameLists.{Lists};

use crate::name_key::NameKey;
use crate::name_lists::{list_at, listed_at};
use crate::placed::{PlacedSigner, signers_of};
use config_load::RowFiles;
use dns_data::{List, Name, NoMemory, Rr};
use key_chain::is_ds;
use std::alloc::Global;
use std::collections::HashMap;
use std::marker::Model;
use zone_tree::Tree;

/// A row, the tree of its zone and the zone's DS records by their owners. Contracts see the row and the zone.
#[derive(Drop)]
pub(crate) struct SignedZone<'z, 'a> {
    row: &'z RowFiles,
    tree: &'z Tree<'a>,
    by_owner: HashMap<NameKey, List<&'a Rr>>,
}

impl<'z, 'a> Model for SignedZone<'z, 'a> {
    ghost use Rattle.map_run.specs.Chain.{is_ds_at};
    ghost use Rattle.map_run.specs.NameLists.{Lists};
    ghost use Rattle.map_run.specs.RowZones.{ZoneOfRow};

    ghost Value = { ZoneOfRow };

    ghost view = { λ at. record { row = at.row.now; zone = at.tree.now.zone } };

    ghost invariant = { λ at. Lists is_ds_at at.tree.now.zone.rrs at.by_owner };
}

impl<'z, 'a> SignedZone<'z, 'a> {
    /// The row with the tree of its zone.
    pub(crate) fn new(
        alloc: Global,
        row: &'z RowFiles,
        tree: &'z Tree<'a>,
    ) -> Result<SignedZone<'z, 'a>, NoMemory>
        ensures { IfOk result (λ at. at ≡ record { row = row.entry.now; zone = tree.entry.now.zone }) }
    {
        let by_owner = ds_by_owner(alloc, tree.zone().rrs.items())?;
        Ok(SignedZone {
            row,
            tree,
            by_owner,
        })
    }

    /// The row.
    pub(crate) fn row(&self) -> &'z RowFiles
        ensures { result.now ≡ self.now.row }
    {
        self.row
    }

    /// The tree of the row's zone.
    pub(crate) fn tree(&self) -> &'z Tree<'a>
        ensures { result.now.zone ≡ self.now.zone }
    {
        self.tree
    }

    /// The DS records of this owner, in whatever form, in the order in which they were read.
    pub(crate) fn ds_records(&self, owner: &NameKey) -> &[&'a Rr]
        ensures { map (λ rr. rr.now) result.now ≡ ds_records self.now.zone owner.now }
    {
        listed_at(&self.by_owner, owner)
    }
}

/// The DS records by their owners.
fn ds_by_owner<'a>(alloc: Global, rrs: &'a [Rr]) -> Result<HashMap<NameKey, List<&'a Rr>>, NoMemory>
    ensures { IfOk result (Lists is_ds_at rrs.now) }
{
    let mut lists = HashMap::new(alloc);
    for rr in rrs {
        if is_ds(&rr.rdata) {
            list_at(alloc, &mut lists, &rr.owner, rr)?;
        }
    }
    Ok(lists)
}

/// A zone cut of a row's zone: its DS records, and the signers that they hold.
#[derive(Drop)]
pub(crate) struct CutSigners<'c, 'a> {
    row: &'c RowFiles,
    cut: &'c Name,
    rrs: &'c [&'a Rr],
    signers: List<PlacedSigner>,
}

impl<'c, 'a> Model for CutSigners<'c, 'a> {
    ghost use Rattle.std.specs.Prelude.{map};
    ghost use Rattle.map_run.specs.Chain.{SignedCut};

    ghost Value = { SignedCut };

    ghost view = { λ at. record { row = at.row.now; cut = at.cut.now; rrs = map (λ rr. rr.now) at.rrs.now; signers = at.signers } };
}

impl<'c, 'a> CutSigners<'c, 'a> {
    /// What the DS records of a zone cut hold.
    pub(crate) fn new(
        alloc: Global,
        at: &'c SignedZone<'_, 'a>,
        cut: &'c Name,
    ) -> Result<CutSigners<'c, 'a>, NoMemory>
        ensures { IfOk result (λ signed. signed ≡ signed_cut at.entry.now.row at.entry.now.zone cut.entry.now) }
    {
        let row = at.row();
        let owner = NameKey::of(alloc, cut)?;
        let rrs = at.ds_records(&owner);
        let signers = signers_of(alloc, row, rrs)?;
        Ok(CutSigners {
            row,
            cut,
            rrs,
            signers,
        })
    }

    /// The row of the zone.
    pub(crate) fn row(&self) -> &'c RowFiles
        ensures { result.now ≡ self.now.row }
    {
        self.row
    }

    /// The cut.
    pub(crate) fn cut(&self) -> &'c Name
        ensures { result.now ≡ self.now.cut }
    {
        self.cut
    }

    /// The DS records, in whatever form.
    pub(crate) fn rrs(&self) -> &'c [&'a Rr]
        ensures { map (λ rr. rr.now) result.now ≡ self.now.rrs }
    {
        self.rrs
    }

    /// The signers that the DS records hold.
    pub(crate) fn signers(&self) -> &[PlacedSigner]
        ensures { result.now ≡ self.now.signers }
    {
        self.signers.items()
    }
}
