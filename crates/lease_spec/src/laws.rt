ghost use Rattle.std.specs.Prelude.{List};
ghost use Rattle.wire_core.specs.declared.address.Ip4.{Ip4};
ghost use Rattle.wire_core.specs.declared.rules.LeaseRules.{LeaseRules};
ghost use Rattle.lease_spec.specs.declared.row.Row.{Row};
ghost use Rattle.lease_spec.specs.Free.{IsLeastFree, least_free};
ghost use Rattle.lease_spec.specs.Holders.{AllLeasable, OwnNumbers, OwnRanges, WithinLimit};
ghost use Rattle.lease_spec.specs.Lives.{AllCaused, EarlierIsGone, Lasts, StandsOrGone};
ghost use Rattle.lease_spec.specs.Moments.{AllTrue};
ghost use Rattle.lease_spec.specs.Once.{NothingTwice};
ghost use Rattle.lease_spec.specs.Places.{AreShort, Ascends, Placed, commands};
ghost use Rattle.lease_spec.specs.Rises.{AllCurrent, AllKept, AlwaysRises};
ghost use Rattle.lease_spec.specs.Table.{OneMore, story};
ghost use Rattle.lease_spec.specs.Truths.{LivesInOrder, OutcomesTold, RowsTold};
ghost use Rattle.wire_core.specs.Commands.{LogCommand};

/// The least free range of a VIP: it is leasable and without a row, and none with a lesser start is. Where there is
/// none, each range of the VIP isn't leasable or has a row.
pub fn least_free()
    ensures { (rules : LeaseRules) (rows : List Row) (vip : Ip4)
        → IsLeastFree rules rows vip (least_free rules rows vip) }
{}

/// Whatever commands are agreed on: each effect has its command, and what was done stays done. Where their places rise,
/// each lease that was born stands or is gone, of two leases on one range the earlier one is gone, no two leases that
/// stand have one number, and nothing comes back: a number is born once, granted once, given back or cleared once, and
/// gone once.
pub fn lives()
    ensures caused { (rules : LeaseRules) (cs : List Placed) → AllCaused rules cs }
    ensures lasts { (rules : LeaseRules) (cs ds : List Placed) → Lasts rules cs ds }
    ensures stands { (rules : LeaseRules) (cs : List Placed) → Ascends cs → StandsOrGone rules cs }
    ensures one_row { (rules : LeaseRules) (cs : List Placed) → Ascends cs → EarlierIsGone rules cs }
    ensures numbers { (rules : LeaseRules) (cs : List Placed) → Ascends cs → OwnNumbers (story rules cs).leases.rows }
    ensures once { (rules : LeaseRules) (cs : List Placed) → Ascends cs → NothingTwice rules cs }
{}

/// The places of a log whose values have at most 16 commands rise, so [`lives`] speaks of every such log. A log with
/// one value more has the table that the value's commands make of its table, and they do their effects after all that
/// was done: a replica may apply slot by slot.
pub fn slots()
    ensures rise { (values : List (List LogCommand)) → AreShort values → Ascends (commands values) }
    ensures more { (rules : LeaseRules) (values : List (List LogCommand)) (value : List LogCommand)
        → OneMore rules values value }
{}

/// Whatever commands are agreed on: no two leases that stand are on one range, each is on a leasable one, and no
/// machine has more than the limit.
pub fn holders()
    ensures leasable { (rules : LeaseRules) (cs : List Placed) → AllLeasable rules (story rules cs).leases.rows }
    ensures own { (rules : LeaseRules) (cs : List Placed) → OwnRanges (story rules cs).leases.rows }
    ensures limit { (rules : LeaseRules) (cs : List Placed) → WithinLimit rules (story rules cs).leases.rows }
{}

/// Whatever commands are agreed on, the table says what was done. Each row is a lease that was born: all its fields but
/// the phase are those of its birth, a Leased row was granted, and a Freeing one was given back or cleared. Each effect
/// on a lease came after its birth, and its end after it was given back or cleared. What is kept of a machine's last
/// request is what was done at it. And each effect is true of the table just before its command: a new row's range was
/// the least free one of its machine's VIP, and the machine had room for it; a request was Exhausted where each
/// leasable range of that VIP had a row, and AtLimit where the machine had as many rows as it may have; a lease was
/// granted that was BeingLeased, given back or cleared that wasn't Freeing, and gone that was.
pub fn truths()
    ensures rows { (rules : LeaseRules) (cs : List Placed) → RowsTold rules cs }
    ensures order { (rules : LeaseRules) (cs : List Placed) → LivesInOrder rules cs }
    ensures outcomes { (rules : LeaseRules) (cs : List Placed) → OutcomesTold rules cs }
    ensures moments { (rules : LeaseRules) (cs : List Placed) → AllTrue rules cs }
{}

/// Whatever commands are agreed on, and whatever comes after them: the boot that is known of an agent never falls, and
/// what is kept of a machine's last request is replaced only by a request with a later pair of boot and number. No
/// request that had an effect is later than what is kept, so none has an effect twice. Where places rise, each lease
/// that isn't Freeing is of the boot that is known of its agent.
pub fn rises()
    ensures on { (rules : LeaseRules) (cs ds : List Placed) → AlwaysRises rules cs ds }
    ensures kept { (rules : LeaseRules) (cs : List Placed) → AllKept rules cs }
    ensures current { (rules : LeaseRules) (cs : List Placed) → Ascends cs → AllCurrent rules cs }
{}
