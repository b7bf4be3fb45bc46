// What a text answered, written.
ghost use Rattle.std.specs.Prelude.{◌≡◌, ℕ, IsOkAnd, string_bytes, take};
ghost use Rattle.std.specs.Io.KnownBytes.{Appends};
ghost use Rattle.outside_io.specs.Faults.{Rose};
ghost use Rattle.ananta_top.specs.Run.{IsRefusal, OfText, RefusedAs};

use crate::ending::Ending;
use crate::refusal::Refusal;
use outside_io::{Failed, Sink};
use sink_text::write_all;

/// Writes what a text answered.
pub fn write_answer<K: Sink>(answer: Result<String, Refusal>, out: &mut K) -> Ending
    ensures done { result ≡ Ending.Done
        → IsOkAnd answer (λ text. Appends (K.written out.old) (K.written out.new) (string_bytes text)) }
    ensures write { result ≡ Ending.WriteFault → Rose (K.faults out.old) (K.faults out.new) }
    ensures front { result ≡ Ending.WriteFault → IsOkAnd answer
        (λ text. (n : ℕ) × Appends (K.written out.old) (K.written out.new) (take n (string_bytes text))) }
    ensures refused { RefusedAs result answer }
    ensures kept { IsRefusal result → out.new ≡ out.old }
    ensures kind { OfText result }
{
    match answer {
        Err(refusal) => Ending::Refused(refusal),
        Ok(lines) => match write_all(out, lines.as_bytes()) {
            Ok(()) => Ending::Done,
            Err(Failed) => Ending::WriteFault,
        },
    }
}
