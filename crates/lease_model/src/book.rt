ghost use Rattle.std.specs.Prelude.{◌≡◌, IfOk, OnErr};
ghost use Rattle.wire_core.specs.Ranges.{range_of};
ghost use Rattle.lease_model.specs.Books.{Answers, Steps, close_on, drop, free, freed, grant, hold, is_lent, judged, lose};
ghost use Rattle.lease_model.specs.Books.{new_book, open_on, reserve, reserve_free};
ghost use Rattle.lease_model.specs.Rows.{row_at, row_of};

use crate::conns::{
    any_clashes, is_in, is_open, is_used, lose_conns, lose_numbers, remove_conn, remove_number,
};
use crate::fault::StepFault;
use crate::row::BookRow;
use crate::rows::{count_of, first_of, move_row, remove_row, row_at, row_of};
use crate::starts::is_least;
use crate::verdict::Verdict;
use lease_spec::Phase;
use std::alloc::Global;
use std::marker::Model;
use wire_core::{Act, Conn, Ip4, LeaseRules, NoMemory, Range};

/// The book of leases.
#[derive(Debug, Drop)]
pub struct Book {
    rules: LeaseRules,
    rows: Vec<BookRow>,
    last: u64,
    held: Vec<u64>,
    once: Vec<u64>,
    conns: Vec<Conn>,
}

impl Model for Book {
    ghost use Rattle.lease_model.specs.Books.{BookState};

    ghost Value = { BookState };

    ghost view = { λ b. record {
      rules = b.rules;
      rows = b.rows.items;
      last = b.last;
      held = b.held.items;
      once = b.once.items;
      conns = b.conns.items;
    } };
}

/// The range that a port lies in.
fn range_of(vip: Ip4, port: u16) -> Range
    ensures { result ≡ range_of vip port }
{
    Range {
        vip,
        start: port - port % 8,
    }
}

/// The answer to an act.
fn answered(verdict: Verdict, act: Act) -> Result<(), StepFault>
    ensures { Answers verdict act result }
{
    match verdict {
        Verdict::Legal => Ok(()),
        Verdict::Clashes { kept } => Err(StepFault::Illegal { act, kept }),
    }
}

impl Book {
    /// A book without rows. Takes no memory.
    pub fn new(alloc: Global, rules: LeaseRules) -> Book
        ensures { result ≡ new_book rules }
    {
        Book {
            rules,
            rows: Vec::new(alloc),
            last: 0,
            held: Vec::new(alloc),
            once: Vec::new(alloc),
            conns: Vec::new(alloc),
        }
    }

    fn reserve_free(&mut self, n: u64, r: Range, machine: Ip4) -> Result<Verdict, NoMemory>
        ensures ok { IfOk result (λ v. (self.new, v) ≡ judged self.old (reserve_free self.old n r machine)) }
        ensures err { OnErr result (self.new ≡ self.old) }
    {
        if !is_least(&self.rules, &self.rows, r, machine) {
            return Ok(Verdict::Clashes { kept: None });
        }
        if self.rules.limit as usize <= count_of(&self.rows, machine) {
            return Ok(Verdict::Clashes {
                kept: first_of(&self.rows, machine),
            });
        }
        self.rows.push(BookRow {
            n,
            range: r,
            machine,
            phase: Phase::BeingLeased,
        })?;
        self.last = n;
        Ok(Verdict::Legal)
    }

    #[tactic(auto, unfolding(crate::specs::Books::reserve))]
    fn reserve(&mut self, n: u64, r: Range, machine: Ip4) -> Result<Verdict, NoMemory>
        ensures ok { IfOk result (λ v. (self.new, v) ≡ judged self.old (reserve self.old n r machine)) }
        ensures err { OnErr result (self.new ≡ self.old) }
    {
        if n <= self.last {
            return Ok(Verdict::Clashes {
                kept: row_at(&self.rows, n),
            });
        }
        match row_of(&self.rows, r) {
            Some(row) => Ok(Verdict::Clashes { kept: Some(row) }),
            None => self.reserve_free(n, r, machine),
        }
    }

    fn grant(&mut self, n: u64) -> Verdict
        ensures { (self.new, result) ≡ judged self.old (grant self.old n (row_at self.old.rows n)) }
    {
        let kept = row_at(&self.rows, n);
        match kept {
            Some(
                BookRow {
                    phase: Phase::BeingLeased,
                    ..
                },
            ) => {
                move_row(&mut self.rows, n, Phase::Leased);
                Verdict::Legal
            }
            _ => Verdict::Clashes { kept },
        }
    }

    fn free(&mut self, n: u64) -> Verdict
        ensures { (self.new, result) ≡ judged self.old (free self.old n (row_at self.old.rows n)) }
    {
        let kept = row_at(&self.rows, n);
        match kept {
            Some(
                BookRow {
                    phase: Phase::BeingLeased | Phase::Leased,
                    ..
                },
            ) if !is_in(n, &self.held) => {
                move_row(&mut self.rows, n, Phase::Freeing);
                Verdict::Legal
            }
            _ => Verdict::Clashes { kept },
        }
    }

    fn freed(&mut self, n: u64) -> Verdict
        ensures { (self.new, result) ≡ judged self.old (freed self.old n (row_at self.old.rows n)) }
    {
        let kept = row_at(&self.rows, n);
        match kept {
            Some(
                BookRow {
                    phase: Phase::Freeing,
                    ..
                },
            ) => {
                remove_row(&mut self.rows, n);
                Verdict::Legal
            }
            _ => Verdict::Clashes { kept },
        }
    }

    fn hold(&mut self, n: u64) -> Result<Verdict, NoMemory>
        ensures ok { IfOk result (λ v. (self.new, v) ≡ judged self.old (hold self.old n (row_at self.old.rows n))) }
        ensures err { OnErr result (self.new ≡ self.old) }
    {
        let kept = row_at(&self.rows, n);
        match kept {
            Some(
                BookRow {
                    phase: Phase::Leased,
                    ..
                },
            ) if !is_in(n, &self.once) => {
                self.held.reserve(1)?;
                self.once.push(n)?;
                self.held.push_reserved(n);
                Ok(Verdict::Legal)
            }
            _ => Ok(Verdict::Clashes { kept }),
        }
    }

    fn give_back(&mut self, n: u64) -> Verdict
        ensures { (self.new, result) ≡ judged self.old (drop self.old n (row_at self.old.rows n)) }
    {
        let kept = row_at(&self.rows, n);
        if is_in(n, &self.held) && !is_used(&self.conns, kept) {
            remove_number(&mut self.held, n);
            Verdict::Legal
        } else {
            Verdict::Clashes { kept }
        }
    }

    fn is_lent(&self, c: Conn, row: BookRow) -> bool
        ensures { result ≡ is_lent self.now c row }
    {
        row.machine == c.machine && is_in(row.n, &self.held)
    }

    fn open(&mut self, c: Conn) -> Result<Verdict, NoMemory>
        ensures ok { IfOk result
            (λ v. (self.new, v) ≡ judged self.old (open_on self.old c (row_of self.old.rows (range_of c.vip c.port)))) }
        ensures err { OnErr result (self.new ≡ self.old) }
    {
        let kept = row_of(&self.rows, range_of(c.vip, c.port));
        match kept {
            Some(row) if self.is_lent(c, row) && !any_clashes(&self.conns, c) => {
                self.conns.push(c)?;
                Ok(Verdict::Legal)
            }
            _ => Ok(Verdict::Clashes { kept }),
        }
    }

    fn close(&mut self, c: Conn) -> Verdict
        ensures { (self.new, result)
            ≡ judged self.old (close_on self.old c (row_of self.old.rows (range_of c.vip c.port))) }
    {
        if is_open(&self.conns, c) {
            remove_conn(&mut self.conns, c);
            Verdict::Legal
        } else {
            Verdict::Clashes {
                kept: row_of(&self.rows, range_of(c.vip, c.port)),
            }
        }
    }

    fn lose(&mut self, agent: u16)
        ensures { self.new ≡ lose self.old agent }
    {
        lose_numbers(&mut self.held, &self.rules, &self.rows, agent);
        lose_conns(&mut self.conns, &self.rules, agent);
    }

    /// Takes one act, where it is legal. `Illegal` comes exactly where one of the act's conditions fails: `kept` is the
    /// row that the first such condition names, `None` where there is no row. After either fault the book is as it was.
    /// Looks at each row, each held number or each connection; a Reserve at the VIP's ranges up to the least free one,
    /// and at each row for each of them.
    #[tactic(auto, unfolding(crate::specs::Books::taken))]
    pub fn step(&mut self, act: &Act) -> Result<(), StepFault>
        ensures { Steps self.old act.now self.new result }
    {
        match act {
            Act::Reserve { n, range, machine } => {
                let (n, range, machine) = (*n, *range, *machine);
                let verdict = self.reserve(n, range, machine)?;
                answered(verdict, Act::Reserve { n, range, machine })
            }
            Act::Grant { n } => answered(self.grant(*n), Act::Grant { n: *n }),
            Act::Free { n } => answered(self.free(*n), Act::Free { n: *n }),
            Act::Freed { n } => answered(self.freed(*n), Act::Freed { n: *n }),
            Act::Hold { n } => answered(self.hold(*n)?, Act::Hold { n: *n }),
            Act::Drop { n } => answered(self.give_back(*n), Act::Drop { n: *n }),
            Act::Open { c } => answered(self.open(*c)?, Act::Open { c: *c }),
            Act::Close { c } => answered(self.close(*c), Act::Close { c: *c }),
            Act::Lose { agent } => {
                self.lose(*agent);
                Ok(())
            }
            Act::Hand { .. } => Ok(()),
        }
    }
}
