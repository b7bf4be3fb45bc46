ghost use Rattle.std.specs.Prelude.{◌≡◌, OnOk};
ghost use Rattle.wire_core.specs.Steps.{with_note};
ghost use Rattle.wire_core.specs.declared.note.Note.TheVariants.{Dropped};

use wire_core::{DropCause, NoMemory, Note, Step};

/// The input is dropped for this cause.
pub(crate) fn drop_for(step: &mut Step, cause: DropCause) -> Result<(), NoMemory>
    ensures { OnOk result (step.new ≡ with_note (Dropped cause) step.old) }
{
    step.note(Note::Dropped { cause })
}
