//! Laws of the texts.

ghost use Rattle.std.specs.Prelude.{◌≡◌, ◌↔◌, ℕ, ◌≤◌, ◌<◌, ◌^◌, List, ◌++◌, codes, Some};
ghost use Rattle.dns_data.specs.Name.{Labels};
ghost use Rattle.dns_data.specs.declared.rr_type.RrType.{RrType};
ghost use Rattle.net_model.specs.declared.walk.Walk.{Walk};
ghost use Rattle.graph_form.specs.declared.report.Report.{Report};
ghost use Rattle.graph_form.specs.declared.report.ReportEntry.{ReportEntry};
ghost use Rattle.serde_json.specs.Data.{Data, depth};
ghost use Rattle.serde_json.specs.Read.{read, max_depth};
ghost use Rattle.serde_json.specs.Written.{compact_text};
ghost use Rattle.report_json.specs.Ask.{ask_value, ask_text};
ghost use Rattle.report_json.specs.Plain.{IsPlain, IsWritten};
ghost use Rattle.report_json.specs.Report.{entry_value, entry_text, report_value, report_text};
ghost use Rattle.report_json.specs.Sites.{sites_value, sites_text, scope_value, scope_text};
ghost use Rattle.report_json.specs.Walks.{walk_value, walk_text};
ghost use Rattle.site_checks.specs.declared.shown.SiteFindings.{SiteFindings};

/// The compact text of a plain value is read as that value, also with a line feed behind it. So are the texts of walks,
/// entries, answers of `ask` and what checks tell, and that of a report whose three numbers have 64 bits at most, also of a
/// scope's.
pub fn texts_read_back()
    ensures value { (value : Data) → IsPlain value → depth value ≤ max_depth → read (compact_text value) ≡ Some value }
    ensures line { (value : Data) → IsPlain value → depth value ≤ max_depth → read (compact_text value ++ codes "\n") ≡ Some value }
    ensures walk { (walk : Walk) → read (walk_text walk) ≡ Some (walk_value walk) }
    ensures entry { (entry : ReportEntry) → read (entry_text entry) ≡ Some (entry_value entry) }
    ensures report { (report : Report) → report.classes < 2 ^ 64 → report.names < 2 ^ 64 → report.rewrites < 2 ^ 64
        → read (report_text report) ≡ Some (report_value report) }
    ensures ask { (name : Labels) (rtype : RrType) (walks : List Walk) → read (ask_text name rtype walks) ≡ Some (ask_value name rtype walks) }
    ensures sites { (told : List SiteFindings) → read (sites_text told) ≡ Some (sites_value told) }
    ensures scope { (report : Report) (name : Labels) (told : List SiteFindings) → report.classes < 2 ^ 64 → report.names < 2 ^ 64 → report.rewrites < 2 ^ 64
        → read (scope_text report name told) ≡ Some (scope_value report name told) }
{}

/// Two texts of walks, and two of entries, are equal exactly where the values are. So it is with what serde_json writes
/// of a value that it holds: it is the text of a walk, or of an entry, exactly where the value is the walk's, or the
/// entry's.
pub fn texts_tell_values()
    ensures walks { (one other : Walk) → (walk_text one ≡ walk_text other) ↔ (walk_value one ≡ walk_value other) }
    ensures entries { (one other : ReportEntry) → (entry_text one ≡ entry_text other) ↔ (entry_value one ≡ entry_value other) }
    ensures written_walk { (value : Data) (text : List ℕ) → IsWritten value text
        → (walk : Walk) → (text ≡ walk_text walk) ↔ (value ≡ walk_value walk) }
    ensures written_entry { (value : Data) (text : List ℕ) → IsWritten value text
        → (entry : ReportEntry) → (text ≡ entry_text entry) ↔ (value ≡ entry_value entry) }
{}
