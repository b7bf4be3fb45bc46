ghost use Rattle.std.specs.Prelude.{List};
ghost use Rattle.paxos_log.specs.Told.{ToldIsChosen, ToldIsInLog, ToldIsOnDisk, ToldIsOne, ToldWasOffered};
ghost use Rattle.paxos_log.specs.WorkedRuns.{CatchingRun, ChosenRun, InheritedRun, InheritingRun, NothingRun};
ghost use Rattle.paxos_log.specs.World.{run, start, view};
ghost use Rattle.paxos_log.specs.declared.event.PaxosEvent.{PaxosEvent};
ghost use Rattle.paxos_spec.specs.Agreement.{Agrees, IsBeginning, LearnsChosen, LogsAgree};
ghost use Rattle.paxos_spec.specs.Agreement.{OwnerLearned, PrimaryKnows, PrimaryLog, PrimarySeal};

/// Whatever happens to five replicas: at a slot one value is chosen; what is learned was chosen at its ballot, and the
/// owner of the ballot learned it; a primary's log exceeds each slot that a lower ballot chose, and nothing more will
/// ever be chosen there below its ballot; its log was learned at ballots up to its own; two logs agree where both have
/// a slot, and each is the beginning of one log of all five.
pub fn agreement()
    ensures agrees { (events : List PaxosEvent) → Agrees (view (run events start)) }
    ensures learned { (events : List PaxosEvent) → LearnsChosen (view (run events start)) }
    ensures owner { (events : List PaxosEvent) → OwnerLearned (view (run events start)) }
    ensures knows { (events : List PaxosEvent) → PrimaryKnows (view (run events start)) }
    ensures seal { (events : List PaxosEvent) → PrimarySeal (view (run events start)) }
    ensures ballots { (events : List PaxosEvent) → PrimaryLog (view (run events start)) }
    ensures logs { (events : List PaxosEvent) → LogsAgree (view (run events start)) }
    ensures beginning { (events : List PaxosEvent) → IsBeginning (view (run events start)) }
{}

/// The same in the words of [`crate::PaxosWorld::learned`]: whatever happens, what a replica tells for a slot was
/// chosen at the ballot that it tells, any two replicas tell the same value, that is the value of the log of all five,
/// and an event offered it.
pub fn told()
    ensures disk { ToldIsOnDisk }
    ensures chosen { (events : List PaxosEvent) → ToldIsChosen (run events start) }
    ensures one { (events : List PaxosEvent) → ToldIsOne (run events start) }
    ensures log { (events : List PaxosEvent) → ToldIsInLog (run events start) }
    ensures offered { (events : List PaxosEvent) → ToldWasOffered events }
{}

/// Agreement isn't kept by doing nothing: in a run a value is chosen, in one it is inherited at ballot 6 and then
/// chosen, and in one a new primary catches up first. The delivery of a message that was never sent changes nothing.
pub fn worked_runs()
    ensures chosen { ChosenRun }
    ensures inheriting { InheritingRun }
    ensures inherited { InheritedRun }
    ensures catching { CatchingRun }
    ensures nothing { NothingRun }
{}
