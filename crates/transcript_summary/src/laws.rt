ghost use Rattle.transcript_summary.specs.Summary.{CountsByPieces};

/// A law: where a text ends with a line's end, the counts of it and of what follows it add up to those of both.
pub fn counts_by_pieces()
    ensures { CountsByPieces }
{}
