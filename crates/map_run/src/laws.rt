//! What the definitions say of outcomes.

ghost use Rattle.std.specs.Prelude.{◌≡◌, Option};
ghost use Rattle.io_edges.specs.Files.{FilesTold};
ghost use Rattle.run_endings.specs.declared.ending.Ending.{Ending};
ghost use Rattle.map_run.specs.Outcome.{Outcome};
ghost use Rattle.map_run.specs.declared.words.MapJob.{MapJob};

/// By what is told of the files, a job has at most one outcome.
pub fn one_outcome()
    ensures one { (told : FilesTold) (job : Option MapJob) (a b : Ending) → Outcome told job a → Outcome told job b → a ≡ b }
{}
