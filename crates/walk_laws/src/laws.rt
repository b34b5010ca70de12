//! Laws over the definitions.

ghost use Rattle.std.specs.Prelude.{◌≡◌, ℕ, ◌≤◌, true, List, ◌++◌, length, Contains};
ghost use Rattle.dns_data.specs.Name.{Labels, IsName};
ghost use Rattle.dns_data.specs.declared.rr_type.RrType.{RrType};
ghost use Rattle.net_model.specs.declared.class.Class.{Class};
ghost use Rattle.net_model.specs.declared.class.Class.TheVariants.{Below};
ghost use Rattle.net_model.specs.declared.config.Config.{Config};
ghost use Rattle.net_model.specs.declared.fault.Fault.{Fault};
ghost use Rattle.net_model.specs.declared.fault.Fault.TheVariants as faults;
ghost use Rattle.net_model.specs.declared.place.Place.{Place};
ghost use Rattle.net_model.specs.declared.walk.State.{State};
ghost use Rattle.net_model.specs.declared.walk.Walk.{Walk};
ghost use Rattle.net_model.specs.Class.{IsClassOf, IsRepresentative};
ghost use Rattle.net_model.specs.Learnt.{IsInForce};
ghost use Rattle.net_model.specs.Reading.{Ground, IsNamed, Covers, ground_of, joined_ground};
ghost use Rattle.net_model.specs.Returns.{ComesBack, hops_round, RewritesAt};
ghost use Rattle.net_model.specs.Shown.{Represents, ShowsLimit, ShowsIn};
ghost use Rattle.net_model.specs.Step.{Setting, following};
ghost use Rattle.net_model.specs.Tails.{AreTails, is_overlong, WalksAs};
ghost use Rattle.net_model.specs.Tree.{IsReached, AreReached, HasMoreThan};
ghost use Rattle.net_model.specs.Walk.{IsWalk, IsBoundedWith};
ghost use Rattle.walk_laws.specs.Outcome.{HaveSameOutcomes};

/// With this many rewrites a configuration has one set in force: there is one, and no other.
pub fn one_in_force()
    ensures exists { (config : Config) (rewrites : ℕ) → (followed : List Labels) × IsInForce config rewrites followed }
    ensures one { (config : Config) (rewrites : ℕ) (one other : List Labels) → IsInForce config rewrites one
        → IsInForce config rewrites other → one ≡ other }
{}

/// Of two names that differ in unnamed labels below one name, the one that isn't the longer walks as the other, whatever
/// servers are followed, and reaches no fewer pairs of state and type. So does the representative of a class below a name
/// beside each member of the class, under every ground that covers the configuration.
pub fn simulation()
    ensures walks { (setting : Setting) (above own other : Labels) → AreTails setting.config above own other
        → (rtype : RrType) → WalksAs setting rtype above own other }
    ensures more { (config : Config) (rewrites : ℕ) (above own other : Labels) → AreTails config above own other
        → (most : ℕ) → HasMoreThan (IsReached config rewrites (above ++ own)) most → HasMoreThan (IsReached config rewrites (above ++ other)) most }
    ensures pairs { (config : Config) (rewrites : ℕ) (above own other : Labels) → AreTails config above own other
        → (of_own of_other : List (State × RrType)) → AreReached config rewrites (above ++ own) of_own → AreReached config rewrites (above ++ other) of_other
        → length of_own ≤ length of_other }
    ensures classes { (config : Config) (base : Ground) → Covers base config
        → (above query representative : Labels) → IsName query → IsClassOf base query (Below above) → IsRepresentative base (Below above) representative
        → (own other : Labels) × (query ≡ above ++ own) × (representative ≡ above ++ other) × AreTails config above own other }
{}

/// Of two names that differ in unnamed labels below one name: where the one that isn't the longer meets an overlong
/// rewrite, so does the other, with the same type.
pub fn overlong_law()
    ensures { (setting : Setting) (above own other : Labels) → AreTails setting.config above own other
        → (rtype : RrType) (walk : Walk) → IsWalk setting (above ++ other) rtype walk → is_overlong walk.leaf ≡ true
        → (of_own : Walk) × IsWalk setting (above ++ own) rtype of_own × (is_overlong of_own.leaf ≡ true) }
{}

/// A query with a walk that comes back to a server and a name has one that ends at the rewrite limit, with the same
/// type, at the place of a rewrite that the walk makes in between: it shows the rewrite limit there.
pub fn return_law()
    ensures limit { (setting : Setting) (query : Labels) (rtype : RrType) (walk : Walk) → IsWalk setting query rtype walk
        → (back : ComesBack walk)
        → (place : Place) × RewritesAt (hops_round walk back) place × (limit : Walk) × IsWalk setting query rtype limit × ShowsLimit limit place }
    ensures shows { (config : Config) (rewrites : ℕ) (followed : List Labels) → IsInForce config rewrites followed
        → (query : Labels) (rtype : RrType) (walk : Walk) → IsWalk (following config rewrites followed) query rtype walk
        → (back : ComesBack walk)
        → (place : Place) × RewritesAt (hops_round walk back) place × ShowsIn config rewrites query rtype (faults.Limit place) }
{}

/// Grounds that cover a configuration: its own, and each that joins it with others and with given names. A joined ground
/// names the names that it was given.
pub fn covering_grounds()
    ensures own { (config : Config) → Covers (ground_of config) config }
    ensures joined { (configs : List Config) (given : List Labels) (config : Config) → Contains configs config → Covers (joined_ground configs given) config }
    ensures given { (configs : List Config) (given : List Labels) (name : Labels) → Contains given name → IsNamed (joined_ground configs given) name }
{}

/// Each fault that a query shows, the representative of its class shows, with the same type, under the configuration's own
/// ground and under every one that covers the configuration. An overlong name is told of the representatives under the own
/// ground alone, and such a query represents its class under every ground that covers the configuration.
pub fn carrying()
    ensures own { (config : Config) (rewrites : ℕ) (class : Class) (query representative : Labels) → IsName query
        → IsClassOf (ground_of config) query class → IsRepresentative (ground_of config) class representative
        → (rtype : RrType) (fault : Fault) → ShowsIn config rewrites query rtype fault → ShowsIn config rewrites representative rtype fault }
    ensures covering { (config : Config) (rewrites : ℕ) (base : Ground) → Covers base config
        → (class : Class) (query representative : Labels) → IsName query
        → IsClassOf base query class → IsRepresentative base class representative
        → (rtype : RrType) (fault : Fault) → ShowsIn config rewrites query rtype fault → ShowsIn config rewrites representative rtype fault }
    ensures represents { (config : Config) (base : Ground) → Covers base config
        → (class : Class) (query : Labels) → IsClassOf base query class → Represents config query → IsRepresentative base class query }
{}

/// Queries of one class of which no walk with a type ends in a name that is too long have the same outcomes with it,
/// whatever servers are followed, under every ground that covers the configuration. Where it is so of one of them, it
/// is so of the class's representative, which has the same outcomes.
pub fn outcomes()
    ensures members { (setting : Setting) (base : Ground) → Covers base setting.config
        → (class : Class) (one other : Labels) → IsClassOf base one class → IsClassOf base other class
        → (rtype : RrType) → IsBoundedWith setting one rtype → IsBoundedWith setting other rtype
        → HaveSameOutcomes setting one other rtype }
    ensures bounded { (setting : Setting) (base : Ground) → Covers base setting.config
        → (class : Class) (query representative : Labels) → IsName query
        → IsClassOf base query class → IsRepresentative base class representative
        → (rtype : RrType) → IsBoundedWith setting query rtype → IsBoundedWith setting representative rtype }
    ensures representative { (setting : Setting) (base : Ground) → Covers base setting.config
        → (class : Class) (query representative : Labels) → IsName query
        → IsClassOf base query class → IsRepresentative base class representative
        → (rtype : RrType) → IsBoundedWith setting query rtype → HaveSameOutcomes setting query representative rtype }
{}
