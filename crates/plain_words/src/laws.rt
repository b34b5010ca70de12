//! Definitions that compute, each with the plainer form that says the same.

ghost use Rattle.std.specs.Prelude.{◌≡◌, ◌↔◌, ◌+◌, ◌++◌, ℕ, ◌<◌, true, List, length, Option, Some, Contains, AllPairs};
ghost use Rattle.config_load.specs.Conf.{files_behind};
ghost use Rattle.config_load.specs.declared.limits.Limits.{Limits};
ghost use Rattle.std.specs.declared.cmp.Ordering.TheVariants.{Less};
ghost use Rattle.dns_data.specs.Name.{Labels, name_cmp, AreInOrder};
ghost use Rattle.dns_data.specs.Rdata.{IsData, has_type};
ghost use Rattle.dns_data.specs.declared.rdata.Rdata.{Rdata};
ghost use Rattle.dns_data.specs.declared.rr_type.RrType.{RrType};
ghost use Rattle.dns_data.specs.declared.rr_type.RrType.TheVariants as types;
ghost use Rattle.io_edges.specs.Files.{FilesTold};
ghost use Rattle.net_model.specs.declared.config.Config.{Config};
ghost use Rattle.net_model.specs.declared.config.Zone.{Zone};
ghost use Rattle.net_model.specs.declared.walk.Walk.{Walk};
ghost use Rattle.net_model.specs.Class.{octet_rank};
ghost use Rattle.net_model.specs.Learnt.{IsRound, IsLeast, IsGreatest, InLeast, InGreatest};
ghost use Rattle.net_model.specs.Lookup.{deciding, ByRedirection};
ghost use Rattle.net_model.specs.Order.{in_order};
ghost use Rattle.net_model.specs.Shown.{is_authoritative, ShowsAnswers};
ghost use Rattle.net_model.specs.Step.{Setting};
ghost use Rattle.net_model.specs.Walk.{IsWalk};
ghost use Rattle.net_model.specs.Zone.{data_at, targets_at, ns_names, addresses, data_cmp};
ghost use Rattle.plain_words.specs.Same.{HaveSame, HoldsData, TellApart};
ghost use Rattle.plain_words.specs.Steady.{IsLearntWhile, IsSteady};
ghost use Rattle.plain_words.specs.Tried.{IsTriedBefore};

/// A round learns exactly the servers whose addresses can be learnt while those before it are followed. A name is in the
/// least set of learnt addresses exactly if it is in every steady set, and in the greatest exactly if it is in some steady
/// set; and both are steady themselves (RFC 1034 section 4.2.1).
pub fn learnt_sets()
    ensures round { (config : Config) (rewrites : ℕ) (followed learnt : List Labels) → IsRound config rewrites followed learnt
        → (name : Labels) → Contains learnt name ↔ IsLearntWhile config rewrites followed name }
    ensures least { (config : Config) (rewrites : ℕ) (name : Labels)
        → InLeast config rewrites name ↔ ((steady : List Labels) → IsSteady config rewrites steady → Contains steady name) }
    ensures greatest { (config : Config) (rewrites : ℕ) (name : Labels)
        → InGreatest config rewrites name ↔ ((steady : List Labels) × IsSteady config rewrites steady × Contains steady name) }
    ensures least_steady { (config : Config) (rewrites : ℕ) (learnt : List Labels) → IsLeast config rewrites learnt → IsSteady config rewrites learnt }
    ensures greatest_steady { (config : Config) (rewrites : ℕ) (learnt : List Labels) → IsGreatest config rewrites learnt → IsSteady config rewrites learnt }
{}

/// Names in order are the one list in which each stands before the later ones that has just these names. So are data of
/// one type, by their texts.
pub fn items_in_order()
    ensures names { (names list : List Labels) → (in_order name_cmp names ≡ list) ↔ (AreInOrder list × HaveSame names list) }
    ensures data_of_one_type { (rtype : RrType) (all list : List Rdata)
        → ((rdata : Rdata) → Contains all rdata → IsData rdata × (has_type rtype rdata ≡ true))
        → (in_order data_cmp all ≡ list) ↔ (AllPairs (λ a b. data_cmp a b ≡ Less) list × HaveSame all list) }
{}

/// Two zones have the same name servers for a name, as lists in order, exactly if they have the same ones as sets. So with
/// addresses and data of a type, where both zones hold data of their types: how texts are printed doesn't matter.
pub fn equal_sets()
    ensures name_servers { (zone other : Zone) (name : Labels)
        → (ns_names zone name ≡ ns_names other name) ↔ HaveSame (targets_at zone name types.Ns) (targets_at other name types.Ns) }
    ensures addresses { (zone other : Zone) (name : Labels) → HoldsData zone → HoldsData other
        → (addresses zone name ≡ addresses other name)
        ↔ HaveSame (data_at zone name types.A ++ data_at zone name types.Aaaa) (data_at other name types.A ++ data_at other name types.Aaaa) }
    ensures data_of_one_type { (zone other : Zone) (name beside : Labels) (rtype : RrType) → HoldsData zone → HoldsData other
        → (in_order data_cmp (data_at zone name rtype) ≡ in_order data_cmp (data_at other beside rtype))
        ↔ HaveSame (data_at zone name rtype) (data_at other beside rtype) }
{}

/// Two walks with one type show differing answers exactly if both end in what a zone has for the name, and the two ends
/// tell it apart: data are compared as sets.
pub fn answers_differ()
    ensures { (setting : Setting) (query beside : Labels) (rtype : RrType) (one other : Walk)
        → IsWalk setting query rtype one → IsWalk setting beside rtype other
        → ShowsAnswers one other
        ↔ ((is_authoritative one.leaf ≡ true) × (is_authoritative other.leaf ≡ true) × TellApart one.leaf other.leaf) }
{}

/// One octet has a lower rank than another exactly if it is tried before it: a to z, 0 to 9, - and _ come first, then the
/// others by their values.
pub fn octets_tried()
    ensures { (one other : ℕ) → (octet_rank one < octet_rank other) ↔ IsTriedBefore one other }
{}

/// Where a redirection decides at a name, its owner has a DNAME record with the target: that there is none never happens
/// (RFC 6672 section 2.4).
pub fn redirections_have_targets()
    ensures { (zone : Zone) (name owner : Labels) (target : Option Labels) → deciding zone name ≡ ByRedirection owner target
        → (to : Labels) × (target ≡ Some to) × Contains (targets_at zone owner types.Dname) to }
{}

/// How many files of a zone may still be opened doesn't matter if they are no fewer than may be included: so its files are
/// those for which its texts ask, one after another (RFC 1035 section 5.1).
pub fn enough_files()
    ensures { (meta : List ℕ) (origin : Labels) (left : Limits) (told : FilesTold) (one other : ℕ) (names texts : List (List ℕ))
        → left.includes < one + length texts → left.includes < other + length texts
        → files_behind meta origin left one names texts told ≡ files_behind meta origin left other names texts told }
{}
