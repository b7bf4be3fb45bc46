ghost use Rattle.std.specs.Prelude.{◌≡◌, ◌≤◌, ◌++◌, OnErr, OnOk, codes};
ghost use Rattle.std.specs.Fmt.{decimal};
ghost use Rattle.std.specs.Io.KnownBytes.{Appends};
ghost use Rattle.outside_io.specs.Faults.{Rose};
ghost use Rattle.ananta_top.specs.Node.{damaged_line, disk_letter, offset_line};
ghost use Rattle.ananta_top.specs.Run.{ending_line, refusal_line, refusal_status, status_of};
ghost use Rattle.node_run.specs.Names.{node_name};

use crate::refusal::Refusal;
use itoa::Buffer;
use outside_io::{Failed, Sink};
use sink_text::write_all;
use wire_core::NodeId;

/// How a run ended. The numbers are the program's exit statuses.
#[derive(Clone, Copy, Debug, PartialEq, Eq)]
pub enum Status {
    /// The job is done, and the input was read to its end.
    Done = 0,
    /// The words are of no form.
    Usage = 2,
    /// The configuration is no JSON, or one of its values is wrong or breaks a rule.
    BadConfig = 3,
    /// A line of the schedule isn't an event, or passes a limit.
    BadSchedule = 4,
    /// The input has more than 67,108,864 bytes.
    TooLong = 5,
    /// A read of the input failed.
    ReadFault = 6,
    /// A write of the output failed.
    WriteFault = 7,
    /// The host had no link at the node's socket, or the link failed to say what came.
    LinkFault = 8,
    /// The host had no disk of a name that it was asked for, or a call of a disk failed.
    DiskFault = 9,
    /// A journal isn't of its form, or has an entry of another role.
    Damaged = 10,
    /// An entry would make a journal longer than 1,073,741,824 bytes.
    JournalFull = 11,
    /// There was no memory.
    NoMemory = 12,
    /// The journal is another node's.
    WrongDisk = 13,
    /// The journal's boot is the last number that there is, 18,446,744,073,709,551,615.
    Spent = 14,
}

/// How a run ended, with why a text has no answer, and where a disk is damaged.
#[derive(Debug, Drop)]
pub enum Ending {
    Done,
    Usage,
    TooLong,
    ReadFault,
    WriteFault,
    Refused(Refusal),
    LinkFault,
    DiskFault,
    /// A file of this node: whether it is the second one, and the offset in it, in bytes.
    Damaged {
        node: NodeId,
        second: bool,
        offset: u64,
    },
    JournalFull,
    WrongDisk,
    Spent,
}

/// Writes `schedule line N`.
fn report_line<K: Sink>(err: &mut K, number: u64) -> Result<(), Failed>
    ensures ok { OnOk result (Appends (K.written err.old) (K.written err.new)
        (codes "schedule line " ++ decimal number ++ codes "\n")) }
    ensures err { OnErr result (Rose (K.faults err.old) (K.faults err.new)) }
{
    write_all(err, b"schedule line ")?;
    let mut digits = Buffer::new();
    write_all(err, digits.format(number).as_bytes())?;
    write_all(err, b"\n")?;
    Ok(())
}

/// Writes a number.
fn report_number<K: Sink>(err: &mut K, number: u64) -> Result<(), Failed>
    ensures ok { OnOk result (Appends (K.written err.old) (K.written err.new) (decimal number)) }
    ensures err { OnErr result (Rose (K.faults err.old) (K.faults err.new)) }
    ensures later { K.faults err.old ≤ K.faults err.new }
{
    let mut digits = Buffer::new();
    write_all(err, digits.format(number).as_bytes())
}

/// Writes a role with its dash, and a number.
fn report_role<K: Sink>(err: &mut K, role: &str, number: u64) -> Result<(), Failed>
    ensures ok { OnOk result (Appends (K.written err.old) (K.written err.new) (role.now ++ decimal number)) }
    ensures err { OnErr result (Rose (K.faults err.old) (K.faults err.new)) }
    ensures later { K.faults err.old ≤ K.faults err.new }
{
    write_all(err, role.as_bytes())?;
    report_number(err, number)?;
    Ok(())
}

/// Writes the name of a node, such as `mux-0`.
fn report_node<K: Sink>(err: &mut K, node: NodeId) -> Result<(), Failed>
    ensures ok { OnOk result (Appends (K.written err.old) (K.written err.new) (node_name node)) }
    ensures err { OnErr result (Rose (K.faults err.old) (K.faults err.new)) }
    ensures later { K.faults err.old ≤ K.faults err.new }
{
    match node {
        NodeId::Replica(index) => report_role(err, "replica-", u64::from(index)),
        NodeId::Mux(index) => report_role(err, "mux-", u64::from(index)),
        NodeId::Agent(index) => report_role(err, "agent-", u64::from(index)),
    }
}

/// Which of a node's two disks.
fn disk_letter(second: bool) -> &'static [u8]
    ensures { result.now ≡ disk_letter second }
{
    if second { b"-b" } else { b"-a" }
}

/// Writes the name of a node's disk, such as `mux-0-a`.
fn report_disk<K: Sink>(err: &mut K, node: NodeId, second: bool) -> Result<(), Failed>
    ensures ok { OnOk result (Appends (K.written err.old) (K.written err.new)
        (node_name node ++ disk_letter second)) }
    ensures err { OnErr result (Rose (K.faults err.old) (K.faults err.new)) }
    ensures later { K.faults err.old ≤ K.faults err.new }
{
    report_node(err, node)?;
    write_all(err, disk_letter(second))?;
    Ok(())
}

/// Writes ` OFFSET`, and ends the line.
fn report_offset<K: Sink>(err: &mut K, offset: u64) -> Result<(), Failed>
    ensures ok { OnOk result (Appends (K.written err.old) (K.written err.new) (offset_line offset)) }
    ensures err { OnErr result (Rose (K.faults err.old) (K.faults err.new)) }
{
    write_all(err, b" ")?;
    report_number(err, offset)?;
    write_all(err, b"\n")?;
    Ok(())
}

/// Writes `damaged FILE OFFSET`.
fn report_damage<K: Sink>(
    err: &mut K,
    node: NodeId,
    second: bool,
    offset: u64,
) -> Result<(), Failed>
    ensures ok { OnOk result (Appends (K.written err.old) (K.written err.new) (damaged_line node second offset)) }
    ensures err { OnErr result (Rose (K.faults err.old) (K.faults err.new)) }
{
    write_all(err, b"damaged ")?;
    report_disk(err, node, second)?;
    report_offset(err, offset)?;
    Ok(())
}

/// Writes `config PATH`.
fn report_path<K: Sink>(err: &mut K, path: &str) -> Result<(), Failed>
    ensures ok { OnOk result (Appends (K.written err.old) (K.written err.new)
        (codes "config " ++ path.now ++ codes "\n")) }
    ensures err { OnErr result (Rose (K.faults err.old) (K.faults err.new)) }
{
    write_all(err, b"config ")?;
    write_all(err, path.as_bytes())?;
    write_all(err, b"\n")?;
    Ok(())
}

/// Writes the line of a text that has no answer.
fn report_refusal<K: Sink>(err: &mut K, refusal: &Refusal) -> Result<(), Failed>
    ensures ok { OnOk result (Appends (K.written err.old) (K.written err.new) (refusal_line refusal.now)) }
    ensures err { OnErr result (Rose (K.faults err.old) (K.faults err.new)) }
{
    match refusal {
        Refusal::Line(number) => report_line(err, *number),
        Refusal::Json => write_all(err, b"config json\n"),
        Refusal::Field(path) => report_path(err, path.as_str()),
        Refusal::NoMemory => write_all(err, b"no memory\n"),
    }
}

/// Writes the line of an ending.
pub fn report<K: Sink>(err: &mut K, ending: &Ending) -> Result<(), Failed>
    ensures ok { OnOk result (Appends (K.written err.old) (K.written err.new) (ending_line ending.now)) }
    ensures err { OnErr result (Rose (K.faults err.old) (K.faults err.new)) }
{
    match ending {
        Ending::Done => Ok(()),
        Ending::Usage => write_all(err, b"usage\n"),
        Ending::TooLong => write_all(err, b"input too long\n"),
        Ending::ReadFault => write_all(err, b"read fault\n"),
        Ending::WriteFault => write_all(err, b"write fault\n"),
        Ending::Refused(refusal) => report_refusal(err, refusal),
        Ending::LinkFault => write_all(err, b"link fault\n"),
        Ending::DiskFault => write_all(err, b"disk fault\n"),
        Ending::Damaged {
            node,
            second,
            offset,
        } => report_damage(err, *node, *second, *offset),
        Ending::JournalFull => write_all(err, b"journal full\n"),
        Ending::WrongDisk => write_all(err, b"wrong disk\n"),
        Ending::Spent => write_all(err, b"spent\n"),
    }
}

fn refusal_status(refusal: &Refusal) -> Status
    ensures { result ≡ refusal_status refusal.now }
{
    match refusal {
        Refusal::Line(_) => Status::BadSchedule,
        Refusal::Json => Status::BadConfig,
        Refusal::Field(_) => Status::BadConfig,
        Refusal::NoMemory => Status::NoMemory,
    }
}

pub fn status_of(ending: &Ending) -> Status
    ensures { result ≡ status_of ending.now }
{
    match ending {
        Ending::Done => Status::Done,
        Ending::Usage => Status::Usage,
        Ending::TooLong => Status::TooLong,
        Ending::ReadFault => Status::ReadFault,
        Ending::WriteFault => Status::WriteFault,
        Ending::Refused(refusal) => refusal_status(refusal),
        Ending::LinkFault => Status::LinkFault,
        Ending::DiskFault => Status::DiskFault,
        Ending::Damaged { .. } => Status::Damaged,
        Ending::JournalFull => Status::JournalFull,
        Ending::WrongDisk => Status::WrongDisk,
        Ending::Spent => Status::Spent,
    }
}
