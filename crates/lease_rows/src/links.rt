ghost use Rattle.std.specs.Prelude.{ℕ, List, min, ◌≡◌, ◌<◌, ◌≤◌, ◌+◌, ◌++◌, ◌∷◌, [], ◌==◌, not, filter, nat_eq, Some, None, option_map, unwrap_or, IfSome, OnOk, if◌then◌else◌};
ghost use Rattle.indexmap.specs.IndexMap.{get, spare};
ghost use Rattle.lease_spec.specs.Table.{row_at};
ghost use Rattle.lease_spec.specs.declared.row.Row as row;
ghost use Rattle.lease_rows.specs.Entries.{RowsAscend, RowsBelow};
ghost use Rattle.lease_rows.specs.Links.{IsLinked, is_number, no_ends, number_after, numbers_of, with_last, with_next, with_previous, without_link};
ghost use Rattle.lease_rows.specs.Rows.{same_address};

use indexmap::IndexMap;
use lease_spec::Row;
use std::alloc::Global;
use wire_core::{Ip4, NoMemory};

/// A row's place among its machine's rows.
#[derive(Clone, Copy, Debug, PartialEq, Eq)]
pub struct Link {
    pub machine: Ip4,
    /// The number of the machine's row before it.
    pub previous: Option<u64>,
    /// The number of the machine's row after it.
    pub next: Option<u64>,
}

/// The numbers of a machine's first and last row.
#[derive(Clone, Copy, Debug, PartialEq, Eq)]
pub struct Ends {
    pub first: Option<u64>,
    pub last: Option<u64>,
}

/// The ends of a machine without rows.
const NO_ENDS: Ends = Ends {
    first: None,
    last: None,
};

impl Ends {
    /// With one more row, after the others.
    fn with_last(self, n: u64) -> Ends
        ensures { result ≡ with_last n self }
    {
        Ends {
            first: self.first.or(Some(n)),
            last: Some(n),
        }
    }

    /// Without the row that had this place.
    fn without_link(self, link: Link) -> Ends
        ensures { result ≡ without_link link self }
    {
        Ends {
            first: if link.previous.is_none() {
                link.next
            } else {
                self.first
            },
            last: if link.next.is_none() {
                link.previous
            } else {
                self.last
            },
        }
    }
}

/// Each machine's rows, from one to the next.
#[derive(Drop)]
pub struct Links {
    /// The place of each row, by its number.
    links: IndexMap<u64, Link>,
    /// The ends of each machine that ever had a row.
    ends: IndexMap<Ip4, Ends>,
}

/// The ends of the machine's rows.
fn ends_of(ends: &IndexMap<Ip4, Ends>, machine: Ip4) -> Ends
    ensures { result ≡ unwrap_or (get same_address ends.now machine) no_ends }
{
    match ends.get(&machine) {
        Some(ends) => *ends,
        None => NO_ENDS,
    }
}

/// The machine has these ends, and had none.
fn put_ends(ends: &mut IndexMap<Ip4, Ends>, machine: Ip4, new: Ends)
    requires { 0 < spare ends.old }
    ensures ends { (m : Ip4) → get same_address ends.new m
        ≡ (if same_address machine m then Some new else get same_address ends.old m) }
    ensures room { spare ends.old ≤ spare ends.new + 1 }
{
    ends.insert(machine, new).unwrap();
}

/// One more row of the machine, after its others. Answers the number of the row before it.
fn put_last(ends: &mut IndexMap<Ip4, Ends>, machine: Ip4, n: u64) -> Option<u64>
    requires { 0 < spare ends.old }
    ensures last { result ≡ (unwrap_or (get same_address ends.old machine) no_ends).last }
    ensures ends { (m : Ip4) → get same_address ends.new m
        ≡ (if same_address machine m
        then Some (with_last n (unwrap_or (get same_address ends.old machine) no_ends))
        else get same_address ends.old m) }
    ensures room { spare ends.old ≤ spare ends.new + 1 }
{
    if let Some(ends) = ends.get_mut(&machine) {
        let last = ends.last;
        *ends = ends.with_last(n);
        return last;
    }
    put_ends(ends, machine, NO_ENDS.with_last(n));
    None
}

/// The machine's ends are without the row that had this place.
fn cut(ends: &mut IndexMap<Ip4, Ends>, link: Link)
    ensures ends { (m : Ip4) → get same_address ends.new m
        ≡ (if same_address link.machine m
        then option_map (without_link link) (get same_address ends.old link.machine)
        else get same_address ends.old m) }
    ensures room { spare ends.old ≤ spare ends.new }
{
    if let Some(ends) = ends.get_mut(&link.machine) {
        *ends = ends.without_link(link);
    }
}

/// The row with this number has this place.
fn put_link(links: &mut IndexMap<u64, Link>, n: u64, link: Link)
    requires { 0 < spare links.old }
    ensures links { (k : ℕ) → get nat_eq links.new k ≡ (if n == k then Some link else get nat_eq links.old k) }
    ensures room { spare links.old ≤ spare links.new + 1 }
{
    links.insert(n, link).unwrap();
}

/// The row with this number has no place any more. Answers the one that it had.
fn take_link(links: &mut IndexMap<u64, Link>, n: u64) -> Option<Link>
    ensures link { result ≡ get nat_eq links.old n }
    ensures links { (k : ℕ) → get nat_eq links.new k ≡ (if n == k then None else get nat_eq links.old k) }
    ensures room { spare links.old ≤ spare links.new }
{
    links.swap_remove(&n)
}

/// Another row comes after this one.
fn set_next(links: &mut IndexMap<u64, Link>, at: Option<u64>, next: Option<u64>)
    ensures links { (k : ℕ) → get nat_eq links.new k
        ≡ (if is_number k at
        then option_map (with_next next) (get nat_eq links.old k)
        else get nat_eq links.old k) }
    ensures room { spare links.old ≤ spare links.new }
{
    if let Some(n) = at {
        if let Some(link) = links.get_mut(&n) {
            link.next = next;
        }
    }
}

/// Another row comes before this one.
fn set_previous(links: &mut IndexMap<u64, Link>, at: Option<u64>, previous: Option<u64>)
    ensures links { (k : ℕ) → get nat_eq links.new k
        ≡ (if is_number k at
        then option_map (with_previous previous) (get nat_eq links.old k)
        else get nat_eq links.old k) }
    ensures room { spare links.old ≤ spare links.new }
{
    if let Some(n) = at {
        if let Some(link) = links.get_mut(&n) {
            link.previous = previous;
        }
    }
}

impl Links {
    /// No rows.
    pub fn new(alloc: Global) -> Links
        ensures { IsLinked [] (get nat_eq result.links) (get same_address result.ends) }
    {
        Links {
            links: IndexMap::new(alloc),
            ends: IndexMap::new(alloc),
        }
    }

    /// Makes room for so many more rows.
    pub fn reserve(&mut self, more: usize) -> Result<(), NoMemory>
        ensures links { (n : ℕ) → get nat_eq self.new.links n ≡ get nat_eq self.old.links n }
        ensures ends { (m : Ip4) → get same_address self.new.ends m ≡ get same_address self.old.ends m }
        ensures room { OnOk result (more ≤ min (spare self.new.links) (spare self.new.ends)) }
    {
        self.links.reserve(more)?;
        self.ends.reserve(more)?;
        Ok(())
    }

    /// One more row, whose number is above each other row's.
    pub fn push(&mut self, n: u64, machine: Ip4)
        requires room { 0 < min (spare self.old.links) (spare self.old.ends) }
        ensures linked { (rows : List row.Row) (row : row.Row) → row.n ≡ n → row.machine ≡ machine
            → RowsAscend rows → RowsBelow n rows
            → IsLinked rows (get nat_eq self.old.links) (get same_address self.old.ends)
            → IsLinked (rows ++ row ∷ []) (get nat_eq self.new.links) (get same_address self.new.ends) }
        ensures room { min (spare self.old.links) (spare self.old.ends)
            ≤ min (spare self.new.links) (spare self.new.ends) + 1 }
    {
        let previous = put_last(&mut self.ends, machine, n);
        set_next(&mut self.links, previous, Some(n));
        let link = Link {
            machine,
            previous,
            next: None,
        };
        put_link(&mut self.links, n, link);
    }

    /// The row with this number leaves.
    pub fn remove(&mut self, n: u64)
        ensures linked { (rows : List row.Row) (row : row.Row) → RowsAscend rows → row_at rows n ≡ Some row
            → IsLinked rows (get nat_eq self.old.links) (get same_address self.old.ends)
            → IsLinked (filter (λ other. not (other.n == n)) rows)
            (get nat_eq self.new.links) (get same_address self.new.ends) }
        ensures room { min (spare self.old.links) (spare self.old.ends)
            ≤ min (spare self.new.links) (spare self.new.ends) }
    {
        let Some(link) = take_link(&mut self.links, n) else {
            return;
        };
        set_next(&mut self.links, link.previous, link.next);
        set_previous(&mut self.links, link.next, link.previous);
        cut(&mut self.ends, link);
    }

    /// The number of the machine's row with the least number above this one, if any, where it is found at once: where
    /// the machine has none, where this number is below the machine's first, or where it is the number of one.
    pub fn next(&self, machine: Ip4, above: u64) -> Option<Option<u64>>
        ensures { IfSome result (λ number. (rows : List row.Row)
            → IsLinked rows (get nat_eq self.now.links) (get same_address self.now.ends)
            → number ≡ number_after (numbers_of rows machine) above) }
    {
        let Some(first) = ends_of(&self.ends, machine).first else {
            return Some(None);
        };
        if above < first {
            return Some(Some(first));
        }
        match self.links.get(&above) {
            Some(link) if link.machine == machine => Some(link.next),
            _ => None,
        }
    }
}
