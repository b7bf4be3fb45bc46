ghost use Rattle.std.specs.Prelude.{◌≡◌, ◌≤◌, ◌↔◌, ℕ, false, Some, None, IfOk, IfSome, IsErrOf, IsOkAnd, IsSomeAnd, OnOk, length, string_bytes, take, vec_len};
ghost use Rattle.std.specs.Io.KnownBytes.{Appends};
ghost use Rattle.outside_io.specs.Faults.{Rose};
ghost use Rattle.ananta_top.specs.Answers.{answer, answered};
ghost use Rattle.ananta_top.specs.Node.{NodeRan};
ghost use Rattle.ananta_top.specs.Words.{IsWithinLines, given, job_of, reads_input, text_for};
ghost use Rattle.ananta_top.specs.Run.{AfterReading, DamageIn, EndsBy, EndsShort, FillsFor, FirstIs, Fronts, HasNoAnswer, HasRoomFor, HasStatusBy, IfServed, IsAfterReading, IsAnswerable, IsAtEndFor, IsBadConfig, IsBadSchedule, IsDoneBy, IsSafeFor, IsTooLong, IsWithin, JudgesInput, JudgesText, KeepsOut, NeedsNoHost, NodeEnds, Printed, PrintedFront, StaysAway, StopsShort, TellsLine};

use crate::check::check;
use crate::ending::{Ending, Status, report, status_of};
use crate::generate::generate;
use crate::node::serve_node;
use crate::refusal::Refusal;
use crate::replaying::{replay, summarize};
use crate::streams::{INPUT_LIMIT, InputFault, read_all};
use crate::words::{Job, job_of};
use crate::writing::write_answer;
use outside_io::{Clock, Host, Sink, Source};
use std::alloc::Global;

/// Does a job on a text that was read.
fn respond<K: Sink, H: Host, C: Clock>(
    alloc: Global,
    job: Job,
    text: &[u8],
    out: &mut K,
    host: &mut H,
    clock: &mut C,
) -> Ending
    requires lines { IsWithinLines job }
    requires within { length text.now ≤ INPUT_LIMIT }
    ensures done { result ≡ Ending.Done → Printed (answer job) (K.written out.old) (K.written out.new) text.now }
    ensures safe { result ≡ Ending.Done → IsSafeFor (Some job) text.now }
    ensures first { FirstIs result (answer job text.now) }
    ensures damage { DamageIn result (answer job text.now) }
    ensures node { IfServed (answer job text.now) (λ cfg who turns. NodeRan cfg who turns (C.times clock.old)
        (C.times clock.new) (H.calls host.old) (H.calls host.new) (K.written out.old) (K.written out.new) result) }
    ensures write { result ≡ Ending.WriteFault → Rose (K.faults out.old) (K.faults out.new) }
    ensures front { result ≡ Ending.WriteFault
        → PrintedFront (answer job) (K.written out.old) (K.written out.new) text.now }
    ensures stopped { StopsShort (Some job) result
        → Fronts (K.written out.old) (K.written out.new) (answer job text.now) }
    ensures full { result ≡ Ending.JournalFull → FillsFor (Some job) text.now }
    ensures room { result ≡ Ending.Done → HasRoomFor (Some job) text.now }
    ensures link { result ≡ Ending.LinkFault → Rose (H.link_faults host.old) (H.link_faults host.new) }
    ensures disk { result ≡ Ending.DiskFault → Rose (H.disk_faults host.old) (H.disk_faults host.new) }
    ensures kept { KeepsOut (Some job) result → out.new ≡ out.old }
    ensures causes { AfterReading result }
    ensures kind { EndsBy (Some job) result }
    ensures host { StaysAway (Some job) result → host.new ≡ host.old }
    ensures clock { StaysAway (Some job) result → clock.new ≡ clock.old }
{
    match job {
        Job::Replay => replay(alloc, text, out),
        Job::Summary => summarize(alloc, text, out),
        Job::Check => write_answer(check(alloc, text), out),
        Job::Generate { number, count } => write_answer(generate(alloc, number, count), out),
        Job::Node { role, index, turns } => {
            serve_node(alloc, text, role, index, turns, out, host, clock)
        }
    }
}

/// The text that a job has to do with: its input, read to the end, or nothing.
fn text_for<S: Source>(alloc: Global, job: Job, input: &mut S) -> Result<Vec<u8>, InputFault>
    ensures all { IfOk result (λ v. IfSome (text_for (Some job) (S.left input.old)) (λ xs. v.items ≡ xs)) }
    ensures end { OnOk result (IsAtEndFor (Some job) (S.left input.new)) }
    ensures within { IfOk result (λ v. vec_len v ≤ INPUT_LIMIT) }
    ensures read { IsErrOf result InputFault.Read → Rose (S.faults input.old) (S.faults input.new) }
    ensures long { IsErrOf result InputFault.TooLong
        → IfSome (text_for (Some job) (S.left input.old)) IsTooLong }
    ensures unread { reads_input (Some job) ≡ false → input.new ≡ input.old }
{
    match job {
        Job::Replay | Job::Summary | Job::Check | Job::Node { .. } => read_all(alloc, input),
        Job::Generate { .. } => Ok(Vec::new(alloc)),
    }
}

/// Reads the input and does the job.
fn perform<S: Source, K: Sink, H: Host, C: Clock>(
    alloc: Global,
    words: &[String],
    input: &mut S,
    out: &mut K,
    host: &mut H,
    clock: &mut C,
) -> Ending
    ensures usage { (result ≡ Ending.Usage) ↔ (job_of words.now ≡ None) }
    ensures done { result ≡ Ending.Done
        → IfSome (given words.now (S.left input.old))
        (Printed (answered words.now) (K.written out.old) (K.written out.new)) }
    ensures end { result ≡ Ending.Done → IsAtEndFor (job_of words.now) (S.left input.new) }
    ensures safe { result ≡ Ending.Done
        → IfSome (given words.now (S.left input.old)) (IsSafeFor (job_of words.now)) }
    ensures within { JudgesText result → IfSome (given words.now (S.left input.old)) IsWithin }
    ensures first { IfSome (given words.now (S.left input.old))
        (λ text. FirstIs result (answered words.now text)) }
    ensures damage { IfSome (given words.now (S.left input.old))
        (λ text. DamageIn result (answered words.now text)) }
    ensures node { AfterReading result → IfSome (given words.now (S.left input.old))
        (λ text. IfServed (answered words.now text) (λ cfg who turns. NodeRan cfg who turns (C.times clock.old)
        (C.times clock.new) (H.calls host.old) (H.calls host.new) (K.written out.old) (K.written out.new) result)) }
    ensures long { result ≡ Ending.TooLong → IfSome (given words.now (S.left input.old)) IsTooLong }
    ensures read { result ≡ Ending.ReadFault → Rose (S.faults input.old) (S.faults input.new) }
    ensures write { result ≡ Ending.WriteFault → Rose (K.faults out.old) (K.faults out.new) }
    ensures front { result ≡ Ending.WriteFault
        → IfSome (given words.now (S.left input.old))
        (PrintedFront (answered words.now) (K.written out.old) (K.written out.new)) }
    ensures stopped { StopsShort (job_of words.now) result → IfSome (given words.now (S.left input.old))
        (λ text. Fronts (K.written out.old) (K.written out.new) (answered words.now text)) }
    ensures full { result ≡ Ending.JournalFull
        → IfSome (given words.now (S.left input.old)) (FillsFor (job_of words.now)) }
    ensures room { result ≡ Ending.Done
        → IfSome (given words.now (S.left input.old)) (HasRoomFor (job_of words.now)) }
    ensures link { result ≡ Ending.LinkFault → Rose (H.link_faults host.old) (H.link_faults host.new) }
    ensures disk { result ≡ Ending.DiskFault → Rose (H.disk_faults host.old) (H.disk_faults host.new) }
    ensures kept { KeepsOut (job_of words.now) result → out.new ≡ out.old }
    ensures unread { reads_input (job_of words.now) ≡ false → input.new ≡ input.old }
    ensures kind { EndsBy (job_of words.now) result }
    ensures host { StaysAway (job_of words.now) result → host.new ≡ host.old }
    ensures clock { StaysAway (job_of words.now) result → clock.new ≡ clock.old }
{
    match job_of(words) {
        None => Ending::Usage,
        Some(job) => match text_for(alloc, job, input) {
            Err(InputFault::Read) => Ending::ReadFault,
            Err(InputFault::TooLong) => Ending::TooLong,
            Err(InputFault::NoMemory) => Ending::Refused(Refusal::NoMemory),
            Ok(text) => respond(alloc, job, &text, out, host, clock),
        },
    }
}

/// The program. `words` are those after its name. The input is read to its end where the job has to do with it, the
/// job's answer goes to `out`, and what a status but Done has to tell goes to `err` as one line. Where the words name a
/// node, `host` hands out its two disks and its link and gets all back, and `clock` tells its time; for every other job
/// both stay as they were.
///
/// Statuses are tested in this order: Usage, ReadFault, TooLong, BadConfig or BadSchedule; then the first of LinkFault,
/// DiskFault, Damaged, WrongDisk, Spent and JournalFull that a node meets, or WriteFault; NoMemory may come in place of
/// any but Usage. The lines of a schedule of nodes are written as they come: after WriteFault, JournalFull and NoMemory a
/// front of them stands on `out`. Every other status but Done and WriteFault leaves `out` as it was.
pub fn run<S: Source, K: Sink, H: Host, C: Clock>(
    alloc: Global,
    words: &[String],
    input: &mut S,
    out: &mut K,
    err: &mut K,
    host: &mut H,
    clock: &mut C,
) -> Status
    // The headline: what was written is exactly the answer, what the schedule prints, the line of the configuration,
    // the schedule of a number or the line of a node's turns; the input was read to its end; and each moment of a
    // schedule was safe.
    ensures done { result ≡ Status.Done
        → IfSome (given words.now (S.left input.old))
        (Printed (answered words.now) (K.written out.old) (K.written out.new)) }
    ensures end { result ≡ Status.Done → IsAtEndFor (job_of words.now) (S.left input.new) }
    ensures safe { result ≡ Status.Done
        → IfSome (given words.now (S.left input.old)) (IsSafeFor (job_of words.now)) }

    // A node: which calls host and clock saw, what was sent, what its disks are left with, and the line of its turns,
    // by how its run ended.
    ensures node { IsAfterReading result → IfSome (given words.now (S.left input.old))
        (λ text. IfServed (answered words.now text) (λ cfg who turns. NodeEnds cfg who turns (C.times clock.old)
        (C.times clock.new) (H.calls host.old) (H.calls host.new) (K.written out.old) (K.written out.new)
        (K.faults err.old) (K.faults err.new) (K.written err.old) (K.written err.new) result)) }

    // A text that has an answer gets it, unless a read or a write fails; a node is run.
    ensures complete { IsSomeAnd (given words.now (S.left input.old)) (IsAnswerable (answered words.now))
        → ¬ (Rose (S.faults input.old) (S.faults input.new)) → ¬ (Rose (K.faults out.old) (K.faults out.new))
        → IsDoneBy (job_of words.now) result }

    // When each other answer comes.
    ensures usage { (result ≡ Status.Usage) ↔ (job_of words.now ≡ None) }
    ensures read { result ≡ Status.ReadFault → Rose (S.faults input.old) (S.faults input.new) }
    ensures long { result ≡ Status.TooLong → IfSome (given words.now (S.left input.old)) IsTooLong }
    ensures within { JudgesInput result → IfSome (given words.now (S.left input.old)) IsWithin }
    ensures config { result ≡ Status.BadConfig
        → IfSome (given words.now (S.left input.old)) (λ text. IsBadConfig (answered words.now text)) }
    ensures bad { result ≡ Status.BadSchedule
        → IfSome (given words.now (S.left input.old)) (λ text. IsBadSchedule (answered words.now text)) }
    ensures write { result ≡ Status.WriteFault → Rose (K.faults out.old) (K.faults out.new) }
    ensures link { result ≡ Status.LinkFault → Rose (H.link_faults host.old) (H.link_faults host.new) }
    ensures disk { result ≡ Status.DiskFault → Rose (H.disk_faults host.old) (H.disk_faults host.new) }
    ensures full { result ≡ Status.JournalFull
        → IfSome (given words.now (S.left input.old)) (FillsFor (job_of words.now)) }
    ensures room { result ≡ Status.Done
        → IfSome (given words.now (S.left input.old)) (HasRoomFor (job_of words.now)) }
    ensures kind { HasStatusBy (job_of words.now) result }

    // What stands on the two sinks otherwise.
    ensures front { result ≡ Status.WriteFault
        → IfSome (given words.now (S.left input.old))
        (PrintedFront (answered words.now) (K.written out.old) (K.written out.new)) }
    ensures stopped { EndsShort (job_of words.now) result → IfSome (given words.now (S.left input.old))
        (λ text. Fronts (K.written out.old) (K.written out.new) (answered words.now text)) }
    ensures kept { HasNoAnswer (job_of words.now) result → out.new ≡ out.old }
    ensures told { ¬ (Rose (K.faults err.old) (K.faults err.new))
        → TellsLine (answered words.now) (given words.now (S.left input.old)) (K.written err.old) (K.written err.new)
        result }

    // What the job doesn't need.
    ensures unread { reads_input (job_of words.now) ≡ false → input.new ≡ input.old }
    ensures host { NeedsNoHost (job_of words.now) result → host.new ≡ host.old }
    ensures clock { NeedsNoHost (job_of words.now) result → clock.new ≡ clock.old }
{
    let ending = perform(alloc, words, input, out, host, clock);
    let _ = report(err, &ending);
    status_of(&ending)
}
