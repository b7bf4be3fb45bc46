ghost use Rattle.paxos_laws.specs.CommonLog.{ChosenStands, LearnedStands, LogOnlyGrows, LogWasLearned};
ghost use Rattle.paxos_laws.specs.CommonLog.{LongestHasAll, NoneIsLonger, StepAdds};
ghost use Rattle.paxos_laws.specs.Disks.{DiskBegins, DiskGrows, StateIsOfDisk};
ghost use Rattle.paxos_laws.specs.EachStep.{BothAreGood, CampaignIsGood, CandidacyIsGood, CutIsGood, DownIsGood};
ghost use Rattle.paxos_laws.specs.EachStep.{HearingIsGood, MessageIsGood, OfferIsGood, ReopeningIsGood, ResendIsGood};
ghost use Rattle.paxos_laws.specs.EachStep.{SayingIsGood, SendersAreOwn, UnofferedIsGood};
ghost use Rattle.paxos_laws.specs.Lasting.{ChoosableShrinks, ChosenLasts, GrowsOn, SealBounds, SealLasts, StaysAsItIs};
ghost use Rattle.paxos_laws.specs.Leading.{CoveredLasts, LeaderIsCovered, LeaderOwns, PromiseIsBound};
ghost use Rattle.paxos_laws.specs.Order.{Begins, InOrderClaims, Keeps, StepGrows};
ghost use Rattle.paxos_laws.specs.Values.{EachWasProposed, TestsHold, TestsTravel, ValuesTravel};
ghost use Rattle.paxos_laws.specs.Worlds.{EachWasOffered, LogGrowsOn, OneForEver, OneLeads, PrimaryKnowsForEver};
ghost use Rattle.paxos_laws.specs.Worlds.{RunKeeps, TurnIsGood};

/// Whatever happens: a world is a beginning and a run of turns, in which the replicas do what [`each_step`] lists, in
/// any order, and fall at any moment. Each turn shows what it owes. The world stays in order and only grows. At a
/// slot one value is chosen, now or later; the log of all five begins with what it was; what lower ballots choose,
/// now or ever, stands below the length that a primary's log has now; each value on a disk, in a message, in a
/// leader's memory and in the log was offered; and no two replicas lead at one ballot.
pub fn worlds()
    ensures turn { TurnIsGood }
    ensures keeps { RunKeeps }
    ensures one { OneForEver }
    ensures log { LogGrowsOn }
    ensures knows { PrimaryKnowsForEver }
    ensures offered { EachWasOffered }
    ensures leads { OneLeads }
{}

/// A view in which five replicas have done nothing is in order; a step of one replica that shows what it owes leaves
/// the view in order, and only adds to it; and of a view in order all is true that is claimed of agreement.
pub fn order()
    ensures begins { Begins }
    ensures keeps { Keeps }
    ensures grows { StepGrows }
    ensures claims { InOrderClaims }
{}

/// Each thing that a replica does shows what it owes: a message, a candidacy, an offer, the outstanding value once
/// more, anything true that proposes nothing, something heard, stepping down, going down and opening again. So does a
/// step of which only the entry was made durable before the replica went down, and so do two steps in one turn, of
/// which the second writes nothing. What a step says comes from its own replica.
pub fn each_step()
    ensures message { MessageIsGood }
    ensures candidacy { CandidacyIsGood }
    ensures campaign { CampaignIsGood }
    ensures offer { OfferIsGood }
    ensures resend { ResendIsGood }
    ensures saying { SayingIsGood }
    ensures hearing { HearingIsGood }
    ensures down { DownIsGood }
    ensures reopening { ReopeningIsGood }
    ensures cut { CutIsGood }
    ensures both { BothAreGood }
    ensures unoffered { UnofferedIsGood }
    ensures own { SendersAreOwn }
{}

/// What lasts while a view grows, by one step or by many: what was chosen, and a seal, which bounds the slots that
/// lower ballots chose. What may be chosen only gets less.
pub fn lasting()
    ensures same { StaysAsItIs }
    ensures on { GrowsOn }
    ensures chosen { ChosenLasts }
    ensures choosable { ChoosableShrinks }
    ensures seal { SealLasts }
    ensures bounds { SealBounds }
{}

/// Values only travel. One that is proposed was offered in the step, or was proposed at its slot before. Each value
/// on a disk, in a message, in a leader's memory and in the log of all five was proposed at its slot: so whatever is
/// true of each value that is offered is true of each. Where that is a test of the value, it is said here too.
pub fn values()
    ensures travel { ValuesTravel }
    ensures proposed { EachWasProposed }
    ensures tests { TestsTravel }
    ensures hold { TestsHold }
{}

/// The log of all five only grows, at its end: in one step by the value that the step learned, exactly where the
/// replica's log was as long as that of all five. It has at each slot what was learned there, so what was chosen. A
/// replica whose log is the longest has all of it, and none is longer.
pub fn common_log()
    ensures grows { LogOnlyGrows }
    ensures adds { StepAdds }
    ensures learned { LearnedStands }
    ensures source { LogWasLearned }
    ensures chosen { ChosenStands }
    ensures longest { LongestHasAll }
    ensures bound { NoneIsLonger }
{}

/// Whoever doesn't follow has a ballot of its own, above 0, which is its promise; all that a replica voted for and
/// learned is of ballots up to its promise; and each slot of the log of whoever doesn't follow was chosen at a ballot
/// up to its own.
pub fn leading()
    ensures owns { LeaderOwns }
    ensures bound { PromiseIsBound }
    ensures covered { LeaderIsCovered }
    ensures lasts { CoveredLasts }
{}

/// A disk's state is the state that an acceptor finds again in the entries, and one more entry is one more word on
/// it.
pub fn disks()
    ensures state { StateIsOfDisk }
    ensures begins { DiskBegins }
    ensures grows { DiskGrows }
{}
