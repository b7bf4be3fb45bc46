ghost use Rattle.std.specs.Prelude.{◌≡◌, ◌≤◌, ℕ, [], OnErr, OnOk, string_bytes, take};
ghost use Rattle.std.specs.Io.KnownBytes.{Appends};
ghost use Rattle.outside_io.specs.Faults.{Rose};

use outside_io::{Failed, Sink};

/// Writes all of the bytes. After a fault a front of them is written.
#[tactic(auto, using(crate::proofs::Written::append_next))]
pub fn write_all<K: Sink>(out: &mut K, bytes: &[u8]) -> Result<(), Failed>
    ensures ok { OnOk result (Appends (K.written out.old) (K.written out.new) bytes.now) }
    ensures err { OnErr result (Rose (K.faults out.old) (K.faults out.new)) }
    ensures front { (n : ℕ) × Appends (K.written out.old) (K.written out.new) (take n bytes.now) }
    ensures later { K.faults out.old ≤ K.faults out.new }
{
    let mut at = 0;
    while at < bytes.len() {
        let count = out.write(&bytes[at..])?;
        if count == 0 {
            return Err(Failed);
        }
        at += count;
    }
    Ok(())
}

/// Writes all of a text, which is empty then. After a fault a front of it is written, and the text stays.
pub fn pass_on<K: Sink>(out: &mut K, text: &mut String) -> Result<(), Failed>
    ensures ok { OnOk result (Appends (K.written out.old) (K.written out.new) (string_bytes text.old)) }
    ensures empty { OnOk result (string_bytes text.new ≡ []) }
    ensures err { OnErr result (Rose (K.faults out.old) (K.faults out.new)) }
    ensures front { (n : ℕ) × Appends (K.written out.old) (K.written out.new) (take n (string_bytes text.old)) }
    ensures later { K.faults out.old ≤ K.faults out.new }
{
    write_all(out, text.as_bytes())?;
    text.clear();
    Ok(())
}
