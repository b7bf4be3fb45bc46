// What the bodies of a file are, without going through it, and which bytes are bodies.
ghost use Rattle.std.specs.Prelude.{◌≡◌, ◌⊎◌, ◌≤◌, ℕ, List, [], length, Ok};
ghost use Rattle.wire_core.specs.declared.entry.Entry.{Entry};
ghost use Rattle.wire_core.specs.Entries.{IsEntry, entry_bytes};
ghost use Rattle.wire_core.specs.Numbers.{AreBytes};
ghost use Rattle.journal.specs.File.{bodies};
ghost use Rattle.journal.specs.Records.{IsBody, IsRecords};

/// A law: a file of records, whatever follows its ending gate, is read as their bodies.
pub fn records_are_read()
    ensures { (bound : ℕ) (file : List ℕ) (bs : List (List ℕ)) → IsRecords bound file bs → bodies bound file ≡ Ok bs }
{}

/// A law: a file that is read as some bodies has at most one byte and none, or is their records and an ending gate.
pub fn file_is_its_records()
    ensures { (bound : ℕ) (file : List ℕ) (bs : List (List ℕ)) → AreBytes file → bodies bound file ≡ Ok bs
        → ((length file ≤ 1) × (bs ≡ [])) ⊎ IsRecords bound file bs }
{}

/// A law: the spelling of each entry is a body that a journal takes. The longest, a vote or what was learned of 16
/// grants to 16 muxes each, has 2,730 bytes.
pub fn entries_are_bodies()
    ensures bodies { (e : Entry) → IsEntry e → IsBody (entry_bytes e) }
    ensures longest { (e : Entry) → IsEntry e → length (entry_bytes e) ≤ 2730 }
{}
