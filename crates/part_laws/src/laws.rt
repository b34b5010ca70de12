//! Laws of what is left of a configuration, the whole, where the held names make a part.

ghost use Rattle.std.specs.Prelude.{◌≡◌, ◌↔◌, ◌++◌, ℕ, true, List, [], Contains};
ghost use Rattle.dns_data.specs.Name.{Labels, is_prefix};
ghost use Rattle.dns_data.specs.declared.rdata.Rr.{Rr};
ghost use Rattle.dns_data.specs.declared.rr_type.RrType.{RrType};
ghost use Rattle.net_model.specs.declared.class.Class.{Class};
ghost use Rattle.net_model.specs.declared.config.Config.{Config};
ghost use Rattle.net_model.specs.declared.config.Zone.{Zone};
ghost use Rattle.net_model.specs.declared.fault.Fault.{Fault};
ghost use Rattle.net_model.specs.Class.{class_name, IsClassOf, IsRepresentative};
ghost use Rattle.net_model.specs.Learnt.{IsInForce, InLeast, InGreatest};
ghost use Rattle.net_model.specs.Reading.{IsNamed, origins_and_owners, ground_of};
ghost use Rattle.net_model.specs.Shown.{ShowsIn};
ghost use Rattle.net_model.specs.Step.{following};
ghost use Rattle.net_model.specs.Tree.{IsReached, HasMoreThan};
ghost use Rattle.net_model.specs.Walk.{walk_along};
ghost use Rattle.part_laws.specs.Part.{with_prefixes, restricted, HasRecord, IsLocal, IsPart, HaveSameLocalNames};
ghost use Rattle.part_laws.specs.RecordByRecord.{MeetsEach};

/// A local query has the same walks in what is left as in the whole, by the same numbers of branches, if the lists of
/// servers that may be followed have the same local names.
pub fn part_walks()
    ensures { (config : Config) (names : List Labels) → IsPart config names
        → (rewrites : ℕ) (of_whole of_part : List Labels) → HaveSameLocalNames config names of_part of_whole
        → (query : Labels) → IsLocal config names query → (rtype : RrType) (numbers : List ℕ)
        → walk_along (following (restricted names config) rewrites of_part) query rtype numbers ≡ walk_along (following config rewrites of_whole) query rtype numbers }
{}

/// A local name is in the least set of learnt addresses of what is left exactly if it is in that of the whole, and so for
/// the greatest sets. So the sets in force have the same local names.
pub fn part_addresses()
    ensures in_force { (config : Config) (names : List Labels) → IsPart config names
        → (rewrites : ℕ) (of_whole of_part : List Labels) → IsInForce config rewrites of_whole → IsInForce (restricted names config) rewrites of_part
        → HaveSameLocalNames config names of_part of_whole }
    ensures least { (config : Config) (names : List Labels) → IsPart config names
        → (rewrites : ℕ) (name : Labels) → IsLocal config names name
        → InLeast (restricted names config) rewrites name ↔ InLeast config rewrites name }
    ensures greatest { (config : Config) (names : List Labels) → IsPart config names
        → (rewrites : ℕ) (name : Labels) → IsLocal config names name
        → InGreatest (restricted names config) rewrites name ↔ InGreatest config rewrites name }
{}

/// A local name is named in what is left exactly if it is in the whole, and is of the same class in both; all names that
/// what is left names are local. A class that goes by a local name has the same representative in both, and that is local.
pub fn part_classes()
    ensures named { (config : Config) (names : List Labels) → IsPart config names
        → (name : Labels) → IsLocal config names name → IsNamed (ground_of (restricted names config)) name ↔ IsNamed (ground_of config) name }
    ensures local { (config : Config) (names : List Labels) → IsPart config names
        → (name : Labels) → IsNamed (ground_of (restricted names config)) name → IsLocal config names name }
    ensures class { (config : Config) (names : List Labels) → IsPart config names
        → (name : Labels) (class : Class) → IsLocal config names name
        → IsClassOf (ground_of (restricted names config)) name class ↔ IsClassOf (ground_of config) name class }
    ensures representative { (config : Config) (names : List Labels) → IsPart config names
        → (class : Class) (name : Labels) → IsLocal config names (class_name class)
        → IsRepresentative (ground_of (restricted names config)) class name ↔ IsRepresentative (ground_of config) class name }
    ensures representative_local { (config : Config) (names : List Labels) → IsPart config names
        → (class : Class) (name : Labels) → IsLocal config names (class_name class)
        → IsRepresentative (ground_of (restricted names config)) class name → IsLocal config names name }
{}

/// A local query shows the same faults in what is left as in the whole.
pub fn part_faults()
    ensures { (config : Config) (names : List Labels) → IsPart config names
        → (rewrites : ℕ) (query : Labels) (rtype : RrType) → IsLocal config names query
        → (fault : Fault) → ShowsIn (restricted names config) rewrites query rtype fault ↔ ShowsIn config rewrites query rtype fault }
{}

/// Names with which each record meets the conditions make a part. All base names of a configuration make one, if its
/// records are at or below their zones' origins. Some names with the root and all their prefixes meet three of the
/// conditions: they have the root, and the prefixes of each; and if each of the names is an origin or an owner of what is
/// left, they are all base names of what is left.
pub fn part_conditions()
    ensures by_record { (config : Config) (names : List Labels) → MeetsEach config names → IsPart config names }
    ensures whole { (config : Config) → ((zone : Zone) (rr : Rr) → HasRecord config zone rr → is_prefix zone.origin rr.owner ≡ true)
        → IsPart config (ground_of config).names }
    ensures root { (names : List Labels) → Contains (with_prefixes names) [] }
    ensures prefixes { (names : List Labels) (above below : Labels)
        → Contains (with_prefixes names) (above ++ below) → Contains (with_prefixes names) above }
    ensures met { (names : List Labels) (config : Config)
        → ((name : Labels) → Contains names name → Contains (origins_and_owners (restricted (with_prefixes names) config)) name)
        → (name : Labels) → Contains (with_prefixes names) name → Contains (ground_of (restricted (with_prefixes names) config)).names name }
{}

/// A local query reaches more pairs of state and type than so many in what is left exactly if it does in the whole.
pub fn part_states()
    ensures { (config : Config) (names : List Labels) → IsPart config names
        → (rewrites : ℕ) (query : Labels) → IsLocal config names query → (most : ℕ)
        → HasMoreThan (IsReached (restricted names config) rewrites query) most ↔ HasMoreThan (IsReached config rewrites query) most }
{}
