//! What the definitions say of query names, of reports and of outcomes.

ghost use Rattle.std.specs.Prelude.{◌≡◌, ℕ, ◌≤◌, List, Result, Ok};
ghost use Rattle.io_edges.specs.Files.{FilesTold};
ghost use Rattle.net_model.specs.declared.config.Config.{Config};
ghost use Rattle.groot_line.specs.declared.fault.LineFault.{LineFault};
ghost use Rattle.groot_line.specs.declared.job.Job.{Job};
ghost use Rattle.groot_line.specs.declared.job.Job.TheVariants as jobs;
ghost use Rattle.groot_line.specs.declared.program.Program.{Program};
ghost use Rattle.groot_line.specs.Program.{usual_names};
ghost use Rattle.run_endings.specs.declared.ending.Ending.{Ending};
ghost use Rattle.groot_run.specs.Laws.{HasClasses};
ghost use Rattle.groot_run.specs.Outcome.{Drills, Outcome};
ghost use Rattle.graph_form.specs.declared.report.Report.{Report};
ghost use Rattle.graph_form.specs.Report.{Subject, IsReport};
ghost use Rattle.site_checks.specs.Views.{Site};

use class_judge::laws;

/// A subject has at most one report.
pub fn one_report()
    ensures one { (subject : Subject) (a b : Report) → IsReport subject a → IsReport subject b → a ≡ b }
{}

/// Each query name of a configuration is in exactly one class, and walks as its class's representative.
pub fn query_classes()
    ensures { (config : Config) (rewrites : ℕ) → HasClasses config rewrites }
{
    laws::names_have_classes();
}

/// By the program, by what is told of the files, and by the checks that the operator brings, a job has at most one outcome.
pub fn one_outcome()
    ensures one { (program : Program) (told : FilesTold) (job : Result Job LineFault) (sites : List Site) (a b : Ending)
        → Outcome program told job sites a → Outcome program told job sites b → a ≡ b }
{}

/// The files of a drill of 1 to 5,000 zones are never refused: they give a configuration to each program, and an outcome of
/// the drill is what a drill gives of it.
pub fn drills_read()
    ensures { (program : Program) (zones workers : ℕ) → 1 ≤ zones → zones ≤ 5000
        → (config : Config) × ((told : FilesTold) (sites : List Site) (ending : Ending)
        → Outcome program told (Ok (jobs.Drill zones workers)) sites ending → Drills (usual_names program) zones config ending) }
{
    drill_laws::drill_files_read();
}
