//! That reports and outcomes exist.

ghost use Rattle.std.specs.Prelude.{◌↔◌, ℕ, List, Contains};
ghost use Rattle.dns_data.specs.Name.{Labels, IsName};
ghost use Rattle.dns_data.specs.declared.rr_type.RrType.{RrType};
ghost use Rattle.graph_form.specs.Report.{Subject, IsReport};
ghost use Rattle.graph_form.specs.declared.report.Report.{Report};
ghost use Rattle.groot_run.specs.Outcome.{Asks, Checks, Compares, Drills, IsRechecked, IsReported, ListsClasses, Scopes, ScopesEach, ShowsClasses};
ghost use Rattle.net_model.specs.declared.config.Config.{Config};
ghost use Rattle.net_model.specs.Nearest.{server_names};
ghost use Rattle.outcome_laws.specs.Parts.{HasEntries, HasFaults, IsWritten};
ghost use Rattle.query_verdicts.specs.Carried.{whole_config};
ghost use Rattle.query_verdicts.specs.Subjects.{IsCovering};
ghost use Rattle.run_endings.specs.declared.ending.Ending.{Ending};
ghost use Rattle.same_answers.specs.Compared.{Compared};
ghost use Rattle.site_checks.specs.Views.{Site};

/// Each configuration has a report, and so has each subject whose ground covers its configuration and whose name is in its
/// class tree.
pub fn report_exists()
    ensures config { (config : Config) (rewrites : ℕ) → (report : Report) × IsReport (whole_config config rewrites) report }
    ensures subject { (subject : Subject) → IsCovering subject → (report : Report) × IsReport subject report }
{}

/// A run ends with the report of a configuration exactly if the three parts of the headline hold: which faults, by which
/// query and walk, and as which text.
pub fn report_parts()
    ensures { (config : Config) (rewrites : ℕ) (ending : Ending) → IsReported config rewrites ending
        ↔ ((report : Report) × HasFaults (whole_config config rewrites) report × HasEntries (whole_config config rewrites) report × IsWritten report ending) }
{}

/// What each command gives of the configurations that it reads, and `recheck` of a report's octets, there is: a text, or
/// that a limit is passed. Of `scope` it is so if the scope's name and the servers' are names, and likewise of `scopes`.
pub fn outcomes_exist()
    ensures check { (limit rewrites : ℕ) (config : Config) → (ending : Ending) × Checks limit rewrites config ending }
    ensures drill { (limit zones : ℕ) (config : Config) → (ending : Ending) × Drills limit zones config ending }
    ensures site { (limit : ℕ) (sites : List Site) (config : Config) → (ending : Ending) × ShowsClasses limit sites config ending }
    ensures classes { (limit : ℕ) (config : Config) → (ending : Ending) × ListsClasses limit config ending }
    ensures ask { (name : Labels) (rtype : RrType) (config : Config) → (ending : Ending) × Asks name rtype config ending }
    ensures same { (limit : ℕ) (two : Compared) → (ending : Ending) × Compares limit two ending }
    ensures recheck { (file : List ℕ) (config : Config) (octets : List ℕ) → (ending : Ending) × IsRechecked file config octets ending }
    ensures scope { (limit : ℕ) (name : Labels) (sites : List Site) (config : Config) → IsName name
        → ((server : Labels) → Contains (server_names config) server → IsName server)
        → (ending : Ending) × Scopes limit name sites config ending }
    ensures scopes { (limit : ℕ) (names : List Labels) (config : Config) → ((name : Labels) → Contains names name → IsName name)
        → ((server : Labels) → Contains (server_names config) server → IsName server)
        → (ending : Ending) × ScopesEach limit config names ending }
{}
