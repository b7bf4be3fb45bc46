ghost use Rattle.worked_world.specs.Lines.{WorkedLines};

/// Each event of the worked run writes its lines: the range is leased, the machine's packet leaves, and the reply is
/// handed to it.
pub fn worked_transcript()
    ensures { WorkedLines }
{}
