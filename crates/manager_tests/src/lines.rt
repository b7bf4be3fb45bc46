//! What a manager does as lines of text, and the datagrams that it sent by their numbers.
use address_text::write_address;
use hex::encode;
use lease_spec::{Phase, Row};
use manager_core::Manager;
use packet_spec::cause_name;
use std::alloc::Global;
use std::test::Fail;
use wire_core::{Act, EntryBytes, FrameBytes, NoMemory, Note, Outgoing, Socket, Step};

/// A datagram that was sent.
#[derive(Drop)]
pub struct Mail {
    pub from: Socket,
    pub to: Socket,
    pub bytes: FrameBytes,
}

/// All datagrams that were sent, from number 1 on, all entries with whose they are, and what was written of these and
/// of all else that managers did.
#[derive(Drop)]
pub struct Record {
    alloc: Global,
    mails: Vec<Mail>,
    entries: Vec<(Socket, EntryBytes)>,
    /// The number behind the last datagram that was delivered.
    next: usize,
    text: String,
}

impl Record {
    pub fn new(alloc: Global) -> Record {
        Record {
            alloc,
            mails: Vec::new(alloc),
            entries: Vec::new(alloc),
            next: 1,
            text: String::new(alloc),
        }
    }

    pub fn get(&self, k: usize) -> Option<&Mail> {
        self.mails.get(k.wrapping_sub(1))
    }

    pub fn count(&self) -> usize {
        self.mails.len()
    }

    pub fn next(&self) -> usize {
        self.next
    }

    /// The datagram with this number is delivered.
    pub fn pass(&mut self, k: usize) {
        if self.next <= k {
            self.next = k.wrapping_add(1);
        }
    }

    pub fn entries(&self) -> &[(Socket, EntryBytes)] {
        self.entries.as_slice()
    }

    pub fn text(&self) -> &str {
        self.text.as_str()
    }

    /// What was written is forgotten.
    pub fn begin(&mut self) {
        self.text = String::new(self.alloc);
    }

    pub fn post(&mut self, from: Socket, to: Socket, bytes: FrameBytes) -> Result<(), NoMemory> {
        self.mails.push(Mail { from, to, bytes })?;
        Ok(())
    }
}

/// The role and the number of a node.
fn node(socket: Socket) -> (&'static str, u32) {
    match socket.ip.0 >> 16 {
        0x0a00 => ("replica", (socket.ip.0 & 0xffff).wrapping_sub(1)),
        0x0a09 => ("mux", (socket.ip.0 & 0xffff).wrapping_sub(1)),
        0x0a08 => ("agent", (socket.ip.0 & 0xffff).wrapping_sub(1)),
        _ => ("another", 0),
    }
}

fn write_entry(alloc: Global, out: &mut String, own: Socket, bytes: &[u8]) -> Result<(), Fail> {
    let (role, i) = node(own);
    let text = encode(alloc, bytes)?;
    writeln!(out, "{role} {i} entry {text}")?;
    Ok(())
}

fn write_name(out: &mut String, own: Socket, name: &str) -> Result<(), Fail> {
    let (role, i) = node(own);
    write!(out, "{role} {i} {name} ")?;
    Ok(())
}

fn write_lease(out: &mut String, own: Socket, name: &str, n: u64) -> Result<(), Fail> {
    write_name(out, own, name)?;
    writeln!(out, "{n}")?;
    Ok(())
}

fn write_act(out: &mut String, own: Socket, act: &Act) -> Result<(), Fail> {
    match act {
        Act::Reserve { n, range, machine } => {
            write_name(out, own, "reserve")?;
            write!(out, "{n} {} ", range.start)?;
            write_address(out, *machine)?;
            writeln!(out)?;
            Ok(())
        }
        Act::Grant { n } => write_lease(out, own, "grant", *n),
        Act::Free { n } => write_lease(out, own, "free", *n),
        Act::Freed { n } => write_lease(out, own, "freed", *n),
        _ => Err(Fail::new("no act of a manager")),
    }
}

fn write_acts(out: &mut String, own: Socket, acts: &[Act]) -> Result<(), Fail> {
    for act in acts {
        write_act(out, own, act)?;
    }
    Ok(())
}

fn write_note(out: &mut String, own: Socket, note: Note) -> Result<(), Fail> {
    match note {
        Note::Dropped { cause } => {
            write_name(out, own, "drop")?;
            writeln!(out, "{}", cause_name(cause))?;
            Ok(())
        }
        _ => Err(Fail::new("no note of a manager")),
    }
}

fn write_notes(out: &mut String, own: Socket, notes: &[Note]) -> Result<(), Fail> {
    for note in notes {
        write_note(out, own, *note)?;
    }
    Ok(())
}

/// Whether the next datagram has the same bytes and goes to the next node.
fn goes_on(sends: &[Outgoing], i: usize) -> bool {
    match (sends.get(i), sends.get(i.wrapping_add(1))) {
        (Some(one), Some(next)) => {
            one.to.ip.0.wrapping_add(1) == next.to.ip.0
                && one.bytes.as_slice() == next.bytes.as_slice()
        }
        _ => false,
    }
}

/// A number, or the first and the last of several.
fn write_span(out: &mut String, first: usize, last: usize) -> Result<(), Fail> {
    if first == last {
        write!(out, "{first} ")?;
    } else {
        write!(out, "{first}-{last} ")?;
    }
    Ok(())
}

/// The line of the last of several datagrams with the same bytes.
fn write_send(
    alloc: Global,
    out: &mut String,
    own: Socket,
    send: &Outgoing,
    last: usize,
    before: usize,
) -> Result<(), Fail> {
    out.push_str("sent ")?;
    write_span(out, last.wrapping_sub(before), last)?;
    write_name(out, own, "to")?;
    let (role, i) = node(send.to);
    write!(out, "{role} ")?;
    write_span(out, (i as usize).wrapping_sub(before), i as usize)?;
    let text = encode(alloc, send.bytes.as_slice())?;
    writeln!(out, "{text}")?;
    Ok(())
}

/// A line for each bytes that go to a node or to several that follow each other. The first of all has this number.
fn write_sends(
    alloc: Global,
    out: &mut String,
    own: Socket,
    sends: &[Outgoing],
    number: usize,
) -> Result<(), Fail> {
    let mut before = 0usize;
    for (i, send) in sends.iter().enumerate() {
        if goes_on(sends, i) {
            before = before.wrapping_add(1);
        } else {
            write_send(alloc, out, own, send, number.wrapping_add(i), before)?;
            before = 0;
        }
    }
    Ok(())
}

fn write_step(alloc: Global, record: &mut Record, own: Socket, step: &Step) -> Result<(), Fail> {
    let number = record.count().wrapping_add(1);
    if let Some(entry) = &step.entry {
        write_entry(alloc, &mut record.text, own, entry.as_slice())?;
    }
    write_acts(&mut record.text, own, step.acts.as_slice())?;
    write_notes(&mut record.text, own, step.notes.as_slice())?;
    write_sends(alloc, &mut record.text, own, step.sends.as_slice(), number)
}

fn post_each(record: &mut Record, own: Socket, sends: Vec<Outgoing>) -> Result<(), NoMemory> {
    for send in sends {
        record.post(own, send.to, send.bytes)?;
    }
    Ok(())
}

fn keep_entry(record: &mut Record, own: Socket, entry: Option<EntryBytes>) -> Result<(), NoMemory> {
    if let Some(entry) = entry {
        record.entries.push((own, entry))?;
    }
    Ok(())
}

/// The entry is kept, and the datagrams are sent.
fn keep_step(record: &mut Record, own: Socket, step: Step) -> Result<(), NoMemory> {
    let Step { entry, sends, .. } = step;
    keep_entry(record, own, entry)?;
    post_each(record, own, sends.into_vec())
}

/// What a manager did is written and done.
pub fn keep(alloc: Global, record: &mut Record, own: Socket, step: Step) -> Result<(), Fail> {
    write_step(alloc, record, own, &step)?;
    keep_step(record, own, step)?;
    Ok(())
}

fn phase_name(phase: Phase) -> &'static str {
    match phase {
        Phase::BeingLeased => "being leased",
        Phase::Leased => "leased",
        Phase::Freeing => "freeing",
    }
}

fn write_row(out: &mut String, row: &Row) -> Result<(), Fail> {
    write!(out, "row {} {} ", row.n, row.range.start)?;
    write_address(out, row.machine)?;
    writeln!(out, " {}", phase_name(row.phase))?;
    Ok(())
}

/// The length of a manager's log, and up to eight rows of its table.
pub fn write_rows(record: &mut Record, own: Socket, manager: &Manager) -> Result<(), Fail> {
    write_lease(&mut record.text, own, "length", manager.length())?;
    let mut above = 0u64;
    for _ in 0..8u8 {
        let Some(row) = manager.next_row(above) else {
            return Ok(());
        };
        write_row(&mut record.text, &row)?;
        above = row.n;
    }
    Ok(())
}
