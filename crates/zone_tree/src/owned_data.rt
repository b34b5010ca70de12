//! What names own, as a tree keeps it.

ghost use Rattle.std.specs.Prelude.{◌≡◌, ℕ, ◌<◌, [], ◌∷◌, All, map, length, slice_index_or, Some, IfOk, IfSome, IfNone};
ghost use Rattle.std.specs.Option.{option_map};
ghost use Rattle.dns_data.specs.Rdata.{type_of_data};
ghost use Rattle.dns_data.specs.TypeSet.{has_bit};
ghost use Rattle.dns_data.specs.declared.rr_type.RrType.{RrType};
ghost use Rattle.zone_tree.specs.OwnedData.{written_out, HaveSameData, IsFormPut, IsFormWithin};
ghost use Rattle.zone_tree.specs.OwnedLists.{part_of, IsPartOf, IsWithin};
ghost use Rattle.zone_tree.specs.Records.{data_in, first_in, TellsData};
ghost use Rattle.zone_tree.specs.declared.owned_lists.OwnedLists.{OwnedLists as OwnedListsValue};

use crate::owned_lists::{OwnedLists, Part, items_of, put_owned};
use crate::records::{data_in, first_in};
use dns_data::{Name, NoMemory, Rdata, Rr, RrType, TypeSet};
use std::alloc::Global;
use std::marker::Model;
use std::slice;

/// What each of some names owns, in turn. A name that owns no data or one datum other than an NS datum, as most names of a
/// zone of hosts do, has no part of the lists. Contracts see of each name the types, the name servers and the data of each
/// type written out.
#[derive(Debug, Drop)]
pub(crate) struct OwnedData<'a> {
    forms: Vec<OwnedForm<'a>>,
    lists: OwnedLists<'a>,
}

/// What a name owns, beside data of none of the twelve types.
#[derive(Debug, Drop)]
pub(crate) enum OwnedForm<'a> {
    /// No data.
    Nothing,
    /// One datum, of a type other than NS.
    OneDatum { rtype: RrType, rdata: &'a Rdata },
    /// Any data: what stands at this place of the lists.
    Whole(usize),
}

impl<'a> Model for OwnedData<'a> {
    ghost use Rattle.std.specs.Prelude.{List, map, All};
    ghost use Rattle.zone_tree.specs.OwnedData.{written_out, IsFormWithin};
    ghost use Rattle.zone_tree.specs.OwnedLists.{IsWithin};
    ghost use Rattle.zone_tree.specs.Records.{OwnedRecords};

    ghost Value = { List OwnedRecords };

    ghost view = { λ owned. map (written_out owned.lists) owned.forms.items };

    ghost invariant = { λ owned. All (IsWithin owned.lists) owned.lists.names.items × All (IsFormWithin owned.lists) owned.forms.items };
}

impl<'a> OwnedData<'a> {
    /// What names own of which these are the forms, by the lists.
    pub(crate) fn of(forms: Vec<OwnedForm<'a>>, lists: OwnedLists<'a>) -> OwnedData<'a>
        requires lists { All (IsWithin lists) lists.names.items }
        requires forms { All (IsFormWithin lists) forms.items }
        ensures { result ≡ map (written_out lists.entry) forms.entry.items }
    {
        OwnedData {
            forms,
            lists: lists.shrunk(),
        }
    }

    /// What the name at a place owns.
    pub(crate) fn at(&self, place: usize) -> Owned<'_, 'a>
        requires { place < length self.now }
        ensures { (d : _) → result ≡ slice_index_or self.now place d }
    {
        Owned {
            form: &self.forms[place],
            lists: &self.lists,
        }
    }
}

/// What a name owns. Contracts see the types, the name servers and the data of each type written out.
#[derive(Drop)]
pub(crate) struct Owned<'t, 'a> {
    form: &'t OwnedForm<'a>,
    lists: &'t OwnedLists<'a>,
}

impl<'t, 'a> Model for Owned<'t, 'a> {
    ghost use Rattle.std.specs.Prelude.{All};
    ghost use Rattle.zone_tree.specs.OwnedData.{written_out, IsFormWithin};
    ghost use Rattle.zone_tree.specs.OwnedLists.{IsWithin};
    ghost use Rattle.zone_tree.specs.Records.{OwnedRecords};

    ghost Value = { OwnedRecords };

    ghost view = { λ owned. written_out owned.lists.now owned.form.now };

    ghost invariant = { λ owned. All (IsWithin owned.lists.now) owned.lists.now.names.items × IsFormWithin owned.lists.now owned.form.now };
}

impl<'t, 'a> Owned<'t, 'a> {
    /// The types.
    pub(crate) fn types(&self) -> TypeSet
        ensures { (rtype : RrType) → has_bit result rtype ≡ has_bit self.now.types rtype }
    {
        match self.form {
            OwnedForm::Nothing => TypeSet::empty(),
            OwnedForm::OneDatum { rtype, .. } => TypeSet::one(*rtype),
            OwnedForm::Whole(place) => self.lists.parts_at(*place).types,
        }
    }

    /// The names of the name servers, in the order of names.
    pub(crate) fn servers(&self) -> &'t [&'a Name]
        ensures { result.now ≡ self.now.servers }
    {
        items_of(
            self.lists.servers.as_slice(),
            servers_part(self.form, self.lists),
        )
    }

    /// The data of a type, in the order of their texts, each once.
    pub(crate) fn set(&self, t: RrType) -> &'t [Rdata]
        ensures { result.now ≡ data_in self.now.sets t }
    {
        match self.form {
            OwnedForm::Nothing => &[],
            OwnedForm::OneDatum { rtype, rdata } => {
                if rtype.number() == t.number() {
                    slice::from_ref(*rdata)
                } else {
                    &[]
                }
            }
            OwnedForm::Whole(place) => {
                let own = self.lists.parts_at(*place);
                let sets = items_of(self.lists.sets.as_slice(), own.sets);
                data_in(sets, self.lists.several.as_slice(), t)
            }
        }
    }

    /// The first data of a type in file order.
    pub(crate) fn first(&self, t: RrType) -> Option<&'a Rdata>
        ensures { option_map (λ rdata. rdata.now) result ≡ first_in self.now.sets t }
    {
        match self.form {
            OwnedForm::Nothing => None,
            OwnedForm::OneDatum { rtype, rdata } => {
                if rtype.number() == t.number() {
                    Some(*rdata)
                } else {
                    None
                }
            }
            OwnedForm::Whole(place) => {
                let own = self.lists.parts_at(*place);
                first_in(items_of(self.lists.sets.as_slice(), own.sets), t)
            }
        }
    }
}

/// Which of the name servers of all names are those of the name with this form.
fn servers_part(form: &OwnedForm<'_>, lists: &OwnedLists<'_>) -> Part
    requires lists { All (IsWithin lists.now) lists.now.names.items }
    requires form { IsFormWithin lists.now form.now }
    ensures within { IsPartOf lists.now.servers.items result }
    ensures servers { part_of lists.now.servers.items result ≡ (written_out lists.now form.now).servers }
{
    match form {
        OwnedForm::Nothing => Part { start: 0, end: 0 },
        OwnedForm::OneDatum { .. } => Part { start: 0, end: 0 },
        OwnedForm::Whole(place) => lists.parts_at(*place).servers,
    }
}

/// The form of what a name owns, by its records, which are in file order. What takes more than a form is put behind what
/// others own.
pub(crate) fn put_form<'a>(
    alloc: Global,
    lists: &mut OwnedLists<'a>,
    own: &[&'a Rr],
) -> Result<OwnedForm<'a>, NoMemory>
    ensures { IfOk result (IsFormPut (map (λ rr. rr.now.rdata) own.now) lists.old lists.new) }
{
    match short_form(own) {
        Some(form) => Ok(form),
        None => Ok(OwnedForm::Whole(put_owned(alloc, lists, own)?)),
    }
}

/// The form of what is owned where it has no part of the lists, or `None` where it has one.
fn short_form<'a>(own: &[&'a Rr]) -> Option<OwnedForm<'a>>
    ensures within { IfSome result (λ form. (lists : OwnedListsValue) → IsFormWithin lists form) }
    ensures tells { IfSome result (λ form. (lists : OwnedListsValue) → TellsData (map (λ rr. rr.now.rdata) own.now) (written_out lists form)) }
{
    let Some((rtype, rdata, later)) = first_typed(own) else {
        return Some(OwnedForm::Nothing);
    };
    if rtype.number() == RrType::Ns.number() || first_typed(later).is_some() {
        return None;
    }
    Some(OwnedForm::OneDatum { rtype, rdata })
}

/// The first data of one of the twelve types, with that type, and the records behind them.
fn first_typed<'r, 'a>(own: &'r [&'a Rr]) -> Option<(RrType, &'a Rdata, &'r [&'a Rr])>
    ensures typed { IfSome result (λ found. type_of_data found.1.now ≡ Some found.0) }
    ensures some { IfSome result (λ found. HaveSameData (map (λ rr. rr.now.rdata) own.now) (found.1.now ∷ map (λ rr. rr.now.rdata) found.2.now)) }
    ensures none { IfNone result (HaveSameData (map (λ rr. rr.now.rdata) own.now) []) }
{
    for (place, rr) in own.iter().enumerate() {
        if let Some(rtype) = rr.rtype() {
            return Some((rtype, &rr.rdata, &own[place + 1..]));
        }
    }
    None
}
