//! Laws of parts that cover a configuration, or answer for it.

ghost use Rattle.std.specs.Prelude.{◌≡◌, ◌↔◌, ◌⊎◌, ◌++◌, ℕ, Bool, true, false, List, [], Contains, map, None, Err};
ghost use Rattle.std.specs.List.{count_by};
ghost use Rattle.dns_data.specs.Name.{Labels, AreInOrder};
ghost use Rattle.graph_form.specs.FirstFaults.{AreFirsts};
ghost use Rattle.graph_form.specs.Report.{IsShown, IsReport};
ghost use Rattle.graph_form.specs.declared.report.Report.{Report};
ghost use Rattle.net_model.specs.declared.config.Config.{Config};
ghost use Rattle.net_model.specs.declared.fault.Fault.{Fault};
ghost use Rattle.net_model.specs.Reading.{origins_and_owners, ground_of};
ghost use Rattle.part_laws.specs.Part.{IsPart, restricted};
ghost use Rattle.query_verdicts.specs.Carried.{whole_config};
ghost use Rattle.query_verdicts.specs.Passed.{SomeClassPasses, SomeNamePasses};
ghost use Rattle.part_reports.specs.Bounds.{is_within, parted_at};
ghost use Rattle.part_reports.specs.Gathered.{AreParts, LocalShows, AreClassedEntriesOf, entries_of_all, entry_fault, class_order, gathered_report_of};
ghost use Rattle.part_reports.specs.Owned.{AreOwnNames, AnswerForAll};
ghost use Rattle.part_form.specs.PartText.{ClassedEntry};
ghost use Rattle.part_reports.specs.PartReport.{PartReport};
ghost use Rattle.part_reports.specs.Reported.{Reported, AreReportsOf, MergesToWhole, StandInOrder, all_read};
ghost use Rattle.part_form.specs.declared.fault.MergeFault.{MergeFault};
ghost use Rattle.part_form.specs.declared.fault.MergeFault.TheVariants.{NoMemory};
ghost use Rattle.part_form.specs.declared.merging.MergedText.{MergedText};
ghost use Rattle.part_form.specs.Merging.{IsMerged, IsMergedText};

/// A part shows a fault exactly if a local query shows it in the whole.
pub fn part_shows()
    ensures { (config : Config) (names : List Labels) → IsPart config names → (rewrites : ℕ) (fault : Fault)
        → IsShown (whole_config (restricted names config) rewrites) fault ↔ LocalShows config rewrites names fault }
{}

/// A configuration that parts cover shows a fault exactly if one of them does.
pub fn parts_show()
    ensures { (config : Config) (parts : List (List Labels)) → AreParts config parts → (rewrites : ℕ) (fault : Fault)
        → IsShown (whole_config config rewrites) fault
        ↔ ((names : List Labels) × Contains parts names × IsShown (whole_config (restricted names config) rewrites) fault) }
{}

/// In a configuration that parts cover, the representative of a class or the name of a server reaches more pairs of state
/// and type than so many exactly if one does in one of the parts.
pub fn parts_pass()
    ensures { (config : Config) (parts : List (List Labels)) → AreParts config parts → (rewrites states : ℕ)
        → (SomeClassPasses (whole_config config rewrites) states ⊎ SomeNamePasses config rewrites states)
        ↔ ((names : List Labels) × Contains parts names
        × (SomeClassPasses (whole_config (restricted names config) rewrites) states ⊎ SomeNamePasses (restricted names config) rewrites states)) }
{}

/// Of the intervals that part at rising names exactly one has a name. So if the own names of parts are those of these
/// intervals, in their order, each name is own to exactly one part.
pub fn parting_names()
    ensures own { (names : List Labels) → AreInOrder names → (parts : List PartReport)
        → map (λ part. part.own) parts ≡ map is_within (parted_at None names) → (name : Labels) → count_by (λ part. part.own name) parts ≡ 1 }
    ensures once { (names : List Labels) → AreInOrder names → (name : Labels) → count_by (λ bounds. is_within bounds name) (parted_at None names) ≡ 1 }
{}

/// If parts answer for a configuration, the first entries of all that they have, of each fault the one with the least
/// class, with their own names and classes added up, are the report of the whole; `first_of_each` of graph_form finds such
/// entries. Such parts cover the configuration. A part holds its own base names if no origin or owner has an own prefix
/// that isn't held. The entries of a report are right with some classes.
pub fn gathered_report()
    ensures gathered { (config : Config) (rewrites : ℕ) (parts : List PartReport) → AnswerForAll config parts
        → ((part : PartReport) → Contains parts part → AreOwnNames (ground_of (restricted part.names config)) part)
        → ((part : PartReport) → Contains parts part → AreClassedEntriesOf (whole_config (restricted part.names config) rewrites) part.entries)
        → (gathered : List ClassedEntry) → AreFirsts entry_fault class_order (entries_of_all parts) gathered
        → IsReport (whole_config config rewrites) (gathered_report_of rewrites parts gathered) }
    ensures cover { (config : Config) (parts : List PartReport) → AnswerForAll config parts → AreParts config (map (λ part. part.names) parts) }
    ensures held { (config : Config) (names : List Labels) (own : Labels → Bool) → Contains names []
        → ((name : Labels) → Contains (origins_and_owners config) name → (above below : Labels) → name ≡ above ++ below → (Contains names above → ⊥) → own above ≡ false)
        → (name : Labels) → Contains (ground_of config).names name → own name ≡ true → Contains names name }
    ensures entries { (config : Config) (rewrites : ℕ) (names : List Labels) (report : Report) → IsReport (whole_config (restricted names config) rewrites) report
        → (classed : List ClassedEntry) × (map (λ entry. entry.entry) classed ≡ report.entries) × AreClassedEntriesOf (whole_config (restricted names config) rewrites) classed }
{}

/// If each of some reports is what is written of a part of a configuration, what is read of their texts is merged to the
/// report of the whole, unless they don't stand in order or memory runs out.
pub fn merged_report()
    ensures whole { (config : Config) (rewrites : ℕ) (reports : List Reported) → AreReportsOf config rewrites reports
        → (merged : MergedText) → IsMergedText (all_read reports) merged → MergesToWhole config rewrites merged }
    ensures refused { (config : Config) (rewrites : ℕ) (reports : List Reported) → AreReportsOf config rewrites reports
        → (fault : MergeFault) → IsMerged (all_read reports) (Err fault) → StandInOrder reports → fault ≡ NoMemory }
{}
