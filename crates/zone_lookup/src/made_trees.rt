//! The trees that are made of zones, one of equal zones.

ghost use Rattle.std.specs.Prelude.{◌≡◌, ◌↔◌, ◌++◌, ◌∷◌, [], map, Contains, IfOk, IfSome, OnOk};
ghost use Rattle.net_model.specs.declared.config.Zone.{Zone as ZoneValue};
ghost use Rattle.zone_lookup.specs.Firsts.{ArePut};

use crate::same_zones::Same;
use dns_data::{Name, NoMemory};
use net_model::Zone;
use std::alloc::Global;
use std::collections::BTreeMap;
use std::marker::Model;
use zone_tree::Tree;

/// Trees of zones, of which no other server's zone that is equal needs a tree of its own. Contracts see the zones.
#[derive(Drop)]
pub(crate) struct MadeTrees<'a> {
    trees: Vec<Tree<'a>>,
    last: BTreeMap<&'a Name, usize>,
}

impl<'a> Model for MadeTrees<'a> {
    ghost use Rattle.std.specs.Prelude.{List, map};
    ghost use Rattle.net_model.specs.declared.config.Zone.{Zone};

    ghost Value = { List Zone };

    ghost view = { λ made. map (λ tree. tree.zone) made.trees.items };
}

impl<'a> MadeTrees<'a> {
    /// No tree.
    pub(crate) fn new(alloc: Global) -> MadeTrees<'a>
        ensures { result ≡ [] }
    {
        MadeTrees {
            trees: Vec::new(alloc),
            last: BTreeMap::new(alloc),
        }
    }

    /// The tree of a zone. It is the one that was made last of a zone with this origin, once more, where that zone is
    /// equal, and else a new one.
    pub(crate) fn tree_of(&mut self, alloc: Global, zone: &'a Zone) -> Result<Tree<'a>, NoMemory>
        ensures tree { IfOk result (λ tree. tree.zone ≡ zone.now) }
        ensures made { OnOk result (ArePut (zone.now ∷ []) self.old self.new) }
    {
        if let Some(tree) = self.equal_one(zone) {
            return Ok(tree.again()?);
        }
        let tree = Tree::build(alloc, zone)?;
        self.put(tree.again()?)?;
        Ok(tree)
    }

    /// The trees, in the order of their origins.
    pub(crate) fn in_order(self) -> Result<Vec<Tree<'a>>, NoMemory>
        ensures { IfOk result (λ trees. (one : ZoneValue) → Contains (map (λ tree. tree.zone) trees.items) one ↔ Contains self.entry one) }
    {
        let mut trees = self.trees;
        trees.sort_by(|a, b| a.zone().origin.compare(&b.zone().origin))?;
        Ok(trees)
    }

    /// The tree that was made last of a zone with the origin of this one, where the two zones are equal.
    fn equal_one(&self, zone: &'a Zone) -> Option<&Tree<'a>>
        ensures tree { IfSome result (λ tree. tree.now.zone ≡ zone.now) }
        ensures made { IfSome result (λ tree. Contains self.now tree.now.zone) }
    {
        let origin = &zone.origin;
        let place = *self.last.get(&origin)?;
        let tree = self.trees.get(place)?;
        if tree.zone().is_same(zone) {
            Some(tree)
        } else {
            None
        }
    }

    /// Puts a tree behind the others.
    fn put(&mut self, tree: Tree<'a>) -> Result<(), NoMemory>
        ensures { OnOk result (self.new ≡ self.old ++ tree.entry.zone ∷ []) }
    {
        self.last.insert(&tree.zone().origin, self.trees.len())?;
        self.trees.push(tree)?;
        Ok(())
    }
}
