//! What the definitions say of zones.

ghost use Rattle.std.specs.Prelude.{◌≡◌, Ok, List, Option, ℕ};
ghost use Rattle.dns_data.specs.declared.rdata.Rr.{Rr};
ghost use Rattle.net_model.specs.declared.config.Zone.{Zone};
ghost use Rattle.zone_rules.specs.KeptRules.{KeepsRules};
ghost use Rattle.zone_rules.specs.ZoneOf.{zone_of};

/// A zone that isn't refused keeps the rules.
pub fn zones_keep_rules()
    ensures { (origin : Option (List (List ℕ))) (rrs : List Rr) (zone : Zone) → zone_of origin rrs ≡ Ok zone → KeepsRules zone }
{}
