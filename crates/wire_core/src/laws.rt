ghost use Rattle.wire_core.specs.Commands.{IsAllowed, IsValue, command_bytes, value_bytes};
ghost use Rattle.wire_core.specs.Entries.{IsEntry, entry_at, entry_bytes};
ghost use Rattle.wire_core.specs.Reading.{command_at, value_at};
ghost use Rattle.wire_core.specs.Spelling.{IsSpelled, ReadsAgain};

/// Commands and values have one spelling each: what is spelled is read again, and what is read is spelled so.
pub fn value_spelling()
    ensures command_again { ReadsAgain IsAllowed command_bytes command_at }
    ensures command_spelled { IsSpelled IsAllowed command_bytes command_at }
    ensures value_again { ReadsAgain IsValue value_bytes value_at }
    ensures value_spelled { IsSpelled IsValue value_bytes value_at }
{}

/// Entries have one spelling each.
pub fn entry_spelling()
    ensures again { ReadsAgain IsEntry entry_bytes entry_at }
    ensures spelled { IsSpelled IsEntry entry_bytes entry_at }
{}
