//! Names and pairs that a graph is made of.

ghost use Rattle.std.specs.Prelude.{◌≡◌, ◌↔◌, ◌⊎◌, ◌++◌, map, Contains, OnOk};
ghost use Rattle.std.specs.List.{flat_map};
ghost use Rattle.dns_data.specs.Name.{Labels};
ghost use Rattle.net_model.specs.Reading.{redirection_of};
ghost use Rattle.label_graph.specs.Graphs.{SomeItem};
ghost use Rattle.label_graph.specs.LiveSet.{HavePrefixes};
ghost use Rattle.label_graph.specs.Pairs.{redirection};
ghost use Rattle.label_graph.specs.Targets.{IsPrefixFrom};

use crate::fronts::put_new_fronts;
use crate::pair::Pair;
use dns_data::{Name, NoMemory, Rdata, Rr};
use std::alloc::Global;

/// Puts the fronts of names at the end.
pub fn put_names(alloc: Global, more: &[&Name], names: &mut Vec<Name>) -> Result<(), NoMemory>
    requires { HavePrefixes names.old.items }
    ensures { OnOk result ((name : Labels) → Contains names.new.items name ↔ (Contains names.old.items name ⊎ SomeItem (λ one. IsPrefixFrom 0 one.now name) more.now)) }
{
    for name in more {
        put_new_fronts(alloc, names, *name)?;
    }
    Ok(())
}

/// Puts the pairs of the DNAME records among these at the end.
pub fn put_pairs(alloc: Global, rrs: &[Rr], dnames: &mut Vec<Pair>) -> Result<(), NoMemory>
    ensures { OnOk result (map redirection dnames.new.items ≡ map redirection dnames.old.items ++ flat_map (λ rr. redirection_of rr.owner rr.rdata) rrs.now) }
{
    for rr in rrs {
        put_pair(alloc, rr, dnames)?;
    }
    Ok(())
}

/// Puts the pair of a record at the end if it is a DNAME record.
fn put_pair(alloc: Global, rr: &Rr, dnames: &mut Vec<Pair>) -> Result<(), NoMemory>
    ensures { OnOk result (map redirection dnames.new.items ≡ map redirection dnames.old.items ++ redirection_of rr.now.owner rr.now.rdata) }
{
    match &rr.rdata {
        Rdata::Dname(target) => {
            let from = rr.owner.copy(alloc)?;
            let to = target.copy(alloc)?;
            dnames.push(Pair { from, to })?;
            Ok(())
        }
        _ => Ok(()),
    }
}
