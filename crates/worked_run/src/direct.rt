ghost use Rattle.worked_run.specs.DirectRun.{DirectCleared, DirectLines, DirectRefused};

/// A connection that leaves the mux, by the tables as they will be: its 16 steps, and rows beside them.
pub fn direct_run()
    ensures lines { DirectLines }
    ensures refused { DirectRefused }
    ensures cleared { DirectCleared }
{}
