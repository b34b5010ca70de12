//! Laws of the checker's answers.

ghost use Rattle.std.specs.Prelude.{◌≡◌, ◌≢◌, ℕ, List, map, Some, Result, Err};
ghost use Rattle.std.specs.List.{AllByRecursion};
ghost use Rattle.std.specs.Str.{IsUtf8};
ghost use Rattle.graph_form.specs.Report.{Subject, IsReport};
ghost use Rattle.graph_form.specs.declared.report.Report.{Report};
ghost use Rattle.net_model.specs.declared.config.Config.{Config};
ghost use Rattle.report_json.specs.Report.{entry_value, report_text};
ghost use Rattle.report_check.specs.Checked.{IsChecked};
ghost use Rattle.report_check.specs.Laws.{IsWritable, IsUnrefused};
ghost use Rattle.report_check.specs.ReportIn.{report_in};
ghost use Rattle.report_check.specs.RightEntries.{IsRight};
ghost use Rattle.report_check.specs.declared.answer.Checked.{Checked};
ghost use Rattle.report_check.specs.declared.answer.CheckFault.{CheckFault};
ghost use Rattle.report_check.specs.declared.answer.CheckFault.TheVariants.{NoMemory};

/// To each configuration and octets there is one answer beside `NoMemory`.
pub fn one_answer()
    ensures { (config : Config) (octets : List ℕ) (one other : Result Checked CheckFault) → IsChecked config octets one → IsChecked config octets other
        → one ≢ Err NoMemory → other ≢ Err NoMemory → one ≡ other }
{}

/// Each entry of a report is right, whatever it is read in. The octets that `report_text` gives of it, its text in UTF-8,
/// are read as the report of these entries; so the answer to them is neither that an entry is wrong nor that they are no
/// report.
pub fn a_report_checks()
    ensures right { (subject : Subject) (report : Report) → IsReport subject report
        → AllByRecursion (IsRight subject.config subject.rewrites) (map entry_value report.entries) }
    ensures read { (report : Report) → IsWritable report → (octets : List ℕ) → octets ≡ report_text report → IsUtf8 octets
        → report_in octets ≡ Some (record { rewrites = report.rewrites; entries = map entry_value report.entries }) }
    ensures answer { (subject : Subject) (report : Report) → IsReport subject report → IsWritable report
        → (octets : List ℕ) → octets ≡ report_text report → IsUtf8 octets
        → (answer : Result Checked CheckFault) → IsChecked subject.config octets answer → IsUnrefused answer }
{}
