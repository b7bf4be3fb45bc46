// Schedules, written line by line or counted.
ghost use Rattle.std.specs.Prelude.{◌≡◌, ◌≤◌, ℕ, false, true, IfErr, IfOk, IsErr, IsOkAnd, OnOk, length, string_bytes, take};
ghost use Rattle.std.specs.Io.KnownBytes.{Appends};
ghost use Rattle.outside_io.specs.Faults.{Rose};
ghost use Rattle.transcript_summary.specs.Summary.{counts_of, four_lines};
ghost use Rattle.ananta_top.specs.Answers.{answer, is_plain, printed};
ghost use Rattle.ananta_top.specs.Run.{AfterReading, DamageIn, FillsAJournal, FirstIs, Fronts, HasRoomInJournals, IsRefusal, IsSafeSchedule, LeavesFront, OfSchedule, Printed, PrintedFront, Replays, Stops, WritesNothing, ending_by};
ghost use Rattle.ananta_top.specs.declared.words.Job.TheVariants.{Replay, Summary};

use crate::ending::Ending;
use crate::refusal::Refusal;
use crate::streams::INPUT_LIMIT;
use crate::writing::write_answer;
use address_text::cut;
use node_schedule::{ScheduleFault, count_transcript, write_lines};
use outside_io::{Failed, Sink};
use plain_schedule::{PlainFault, plain_lines};
use sink_text::write_all;
use std::alloc::{AllocError, Global};
use transcript_summary::{Counts, append_counts};

fn is_plain(text: &[u8]) -> bool
    ensures { result ≡ is_plain text.now }
{
    let (first, _) = cut(text, b'\n');
    first == b"plain".as_slice()
}

// ---- plain schedules, whose lines are made first

#[tactic(auto, using(crate::proofs::Schedules::plain_prints, crate::proofs::Schedules::plain_room, crate::proofs::Schedules::plain_safe))]
fn write_plain<K: Sink>(alloc: Global, text: &[u8], out: &mut K) -> Result<(), ScheduleFault>
    requires within { length text.now ≤ INPUT_LIMIT }
    requires plain { is_plain text.now ≡ true }
    ensures written { OnOk result (IsOkAnd (printed text.now) (Appends (K.written out.old) (K.written out.new))) }
    ensures room { HasRoomInJournals text.now }
    ensures safe { IsSafeSchedule text.now }
    ensures stops { IfErr result (λ e. Stops e (Rose (K.faults out.old) (K.faults out.new)) text.now
        (printed text.now)) }
    ensures front { IfOk (printed text.now)
        (λ lines. (n : ℕ) × Appends (K.written out.old) (K.written out.new) (take n lines)) }
    ensures nothing { IsErr (printed text.now) → out.new ≡ out.old }
{
    match plain_lines(alloc, text) {
        Ok(lines) => match write_all(out, lines.as_bytes()) {
            Ok(()) => Ok(()),
            Err(Failed) => Err(ScheduleFault::Write),
        },
        Err(PlainFault::Line(number)) => Err(ScheduleFault::Line(number)),
        Err(PlainFault::NoMemory) => Err(ScheduleFault::NoMemory),
    }
}

#[tactic(auto, using(crate::proofs::Schedules::plain_prints, crate::proofs::Schedules::plain_room, crate::proofs::Schedules::plain_safe))]
fn count_plain(alloc: Global, text: &[u8]) -> Result<Counts, ScheduleFault>
    requires within { length text.now ≤ INPUT_LIMIT }
    requires plain { is_plain text.now ≡ true }
    ensures counts { IfOk result (λ counts. IsOkAnd (printed text.now) (λ lines. counts ≡ counts_of lines)) }
    ensures room { HasRoomInJournals text.now }
    ensures safe { IsSafeSchedule text.now }
    ensures stops { IfErr result (λ e. Stops e ⊥ text.now (printed text.now)) }
{
    match plain_lines(alloc, text) {
        Ok(lines) => Ok(Counts::of(lines.as_bytes())),
        Err(PlainFault::Line(number)) => Err(ScheduleFault::Line(number)),
        Err(PlainFault::NoMemory) => Err(ScheduleFault::NoMemory),
    }
}

// ---- schedules of nodes, whose lines are written or counted as they come

fn write_nodes<K: Sink>(alloc: Global, text: &[u8], out: &mut K) -> Result<(), ScheduleFault>
    requires within { length text.now ≤ INPUT_LIMIT }
    requires plain { is_plain text.now ≡ false }
    ensures written { OnOk result (IsOkAnd (printed text.now) (Appends (K.written out.old) (K.written out.new))) }
    ensures room { OnOk result (HasRoomInJournals text.now) }
    ensures safe { OnOk result (IsSafeSchedule text.now) }
    ensures stops { IfErr result (λ e. Stops e (Rose (K.faults out.old) (K.faults out.new)) text.now
        (printed text.now)) }
    ensures front { IfOk (printed text.now)
        (λ lines. (n : ℕ) × Appends (K.written out.old) (K.written out.new) (take n lines)) }
    ensures nothing { IsErr (printed text.now) → out.new ≡ out.old }
{
    write_lines(alloc, text, out)
}

fn count_nodes(alloc: Global, text: &[u8]) -> Result<Counts, ScheduleFault>
    requires within { length text.now ≤ INPUT_LIMIT }
    requires plain { is_plain text.now ≡ false }
    ensures counts { IfOk result (λ counts. IsOkAnd (printed text.now) (λ lines. counts ≡ counts_of lines)) }
    ensures room { OnOk result (HasRoomInJournals text.now) }
    ensures safe { OnOk result (IsSafeSchedule text.now) }
    ensures stops { IfErr result (λ e. Stops e ⊥ text.now (printed text.now)) }
{
    count_transcript(alloc, text)
}

// ---- both

fn write_schedule<K: Sink>(alloc: Global, text: &[u8], out: &mut K) -> Result<(), ScheduleFault>
    requires { length text.now ≤ INPUT_LIMIT }
    ensures written { OnOk result (IsOkAnd (printed text.now) (Appends (K.written out.old) (K.written out.new))) }
    ensures room { OnOk result (HasRoomInJournals text.now) }
    ensures safe { OnOk result (IsSafeSchedule text.now) }
    ensures stops { IfErr result (λ e. Stops e (Rose (K.faults out.old) (K.faults out.new)) text.now
        (printed text.now)) }
    ensures front { IfOk (printed text.now)
        (λ lines. (n : ℕ) × Appends (K.written out.old) (K.written out.new) (take n lines)) }
    ensures nothing { IsErr (printed text.now) → out.new ≡ out.old }
{
    if is_plain(text) {
        write_plain(alloc, text, out)
    } else {
        write_nodes(alloc, text, out)
    }
}

fn count_schedule(alloc: Global, text: &[u8]) -> Result<Counts, ScheduleFault>
    requires { length text.now ≤ INPUT_LIMIT }
    ensures counts { IfOk result (λ counts. IsOkAnd (printed text.now) (λ lines. counts ≡ counts_of lines)) }
    ensures room { OnOk result (HasRoomInJournals text.now) }
    ensures safe { OnOk result (IsSafeSchedule text.now) }
    ensures stops { IfErr result (λ e. Stops e ⊥ text.now (printed text.now)) }
{
    if is_plain(text) {
        count_plain(alloc, text)
    } else {
        count_nodes(alloc, text)
    }
}

// ---- how it ends

fn ending_by(fault: ScheduleFault) -> Ending
    ensures { result ≡ ending_by fault }
{
    match fault {
        ScheduleFault::Json => Ending::Refused(Refusal::Json),
        ScheduleFault::Field(path) => Ending::Refused(Refusal::Field(path)),
        ScheduleFault::Line(number) => Ending::Refused(Refusal::Line(number)),
        ScheduleFault::Full => Ending::JournalFull,
        ScheduleFault::Write => Ending::WriteFault,
        ScheduleFault::NoMemory => Ending::Refused(Refusal::NoMemory),
    }
}

// The lines of a schedule are written as they come.
fn write_replay<K: Sink>(alloc: Global, text: &[u8], out: &mut K) -> Ending
    requires { length text.now ≤ INPUT_LIMIT }
    ensures replays { Replays (K.written out.old) (K.written out.new) (K.faults out.old) (K.faults out.new) text.now
        (answer Replay text.now) result }
    ensures kept { WritesNothing result → out.new ≡ out.old }
    ensures kind { OfSchedule result }
{
    match write_schedule(alloc, text, out) {
        Ok(()) => Ending::Done,
        Err(fault) => ending_by(fault),
    }
}

/// The four lines of some counts.
fn counts_text(alloc: Global, counts: &Counts) -> Result<String, Refusal>
    ensures text { IfOk result (λ text. string_bytes text ≡ four_lines counts.now) }
    ensures no_memory { IfErr result (λ e. e ≡ Refusal.NoMemory) }
{
    let mut text = String::new(alloc);
    match append_counts(&mut text, counts) {
        Ok(()) => Ok(text),
        Err(AllocError) => Err(Refusal::NoMemory),
    }
}

// The counts of a schedule's lines are written.
fn write_summary<K: Sink>(alloc: Global, text: &[u8], out: &mut K) -> Ending
    requires { length text.now ≤ INPUT_LIMIT }
    ensures replays { Replays (K.written out.old) (K.written out.new) (K.faults out.old) (K.faults out.new) text.now
        (answer Summary text.now) result }
    ensures kept { IsRefusal result → out.new ≡ out.old }
    ensures kind { OfSchedule result }
{
    match count_schedule(alloc, text) {
        Ok(counts) => write_answer(counts_text(alloc, &counts), out),
        Err(fault) => ending_by(fault),
    }
}

/// Writes what `replay` answers: what a schedule prints, a plain one or one of nodes. The lines of nodes are written as
/// they come.
pub fn replay<K: Sink>(alloc: Global, text: &[u8], out: &mut K) -> Ending
    requires { length text.now ≤ INPUT_LIMIT }
    ensures done { result ≡ Ending.Done → Printed (answer Replay) (K.written out.old) (K.written out.new) text.now }
    ensures room { result ≡ Ending.Done → HasRoomInJournals text.now }
    ensures safe { result ≡ Ending.Done → IsSafeSchedule text.now }
    ensures first { FirstIs result (answer Replay text.now) }
    ensures damage { DamageIn result (answer Replay text.now) }
    ensures write { result ≡ Ending.WriteFault → Rose (K.faults out.old) (K.faults out.new) }
    ensures front { result ≡ Ending.WriteFault
        → PrintedFront (answer Replay) (K.written out.old) (K.written out.new) text.now }
    ensures stopped { LeavesFront result → Fronts (K.written out.old) (K.written out.new) (answer Replay text.now) }
    ensures full { result ≡ Ending.JournalFull → FillsAJournal text.now }
    ensures kept { WritesNothing result → out.new ≡ out.old }
    ensures causes { AfterReading result }
    ensures kind { OfSchedule result }
{
    write_replay(alloc, text, out)
}

/// Writes what `replay --summary` answers: how many lines of each kind a schedule prints.
pub fn summarize<K: Sink>(alloc: Global, text: &[u8], out: &mut K) -> Ending
    requires { length text.now ≤ INPUT_LIMIT }
    ensures done { result ≡ Ending.Done → Printed (answer Summary) (K.written out.old) (K.written out.new) text.now }
    ensures room { result ≡ Ending.Done → HasRoomInJournals text.now }
    ensures safe { result ≡ Ending.Done → IsSafeSchedule text.now }
    ensures first { FirstIs result (answer Summary text.now) }
    ensures damage { DamageIn result (answer Summary text.now) }
    ensures write { result ≡ Ending.WriteFault → Rose (K.faults out.old) (K.faults out.new) }
    ensures front { result ≡ Ending.WriteFault
        → PrintedFront (answer Summary) (K.written out.old) (K.written out.new) text.now }
    ensures stopped { LeavesFront result → Fronts (K.written out.old) (K.written out.new) (answer Summary text.now) }
    ensures full { result ≡ Ending.JournalFull → FillsAJournal text.now }
    ensures kept { IsRefusal result → out.new ≡ out.old }
    ensures causes { AfterReading result }
    ensures kind { OfSchedule result }
{
    write_summary(alloc, text, out)
}
