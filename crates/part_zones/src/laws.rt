//! The law of the rules of a zone and of what is left of it.

ghost use Rattle.std.specs.Prelude.{List, Contains};
ghost use Rattle.dns_data.specs.Name.{Labels};
ghost use Rattle.dns_data.specs.declared.rdata.Rr.{Rr};
ghost use Rattle.net_model.specs.declared.config.Zone.{Zone};
ghost use Rattle.part_laws.specs.Part.{restricted_zone};
ghost use Rattle.zone_rules.specs.KeptRules.{KeepsRules};
ghost use Rattle.part_zones.specs.TestedZones.{IsTestedIn};

/// What is left of a zone that keeps the rules keeps them, if the zone's origin is held. A zone keeps the rules if, at its
/// origin and at each owner, what is left of it does where this name is held with some others.
pub fn part_rules()
    ensures left { (zone : Zone) (names : List Labels) → KeepsRules zone → Contains names zone.origin → KeepsRules (restricted_zone names zone) }
    ensures whole { (zone : Zone) → IsTestedIn zone zone.origin → ((rr : Rr) → Contains zone.rrs rr → IsTestedIn zone rr.owner) → KeepsRules zone }
{}
