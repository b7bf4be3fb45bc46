ghost use Rattle.worked_run.specs.ReplicaAgents.{Asks, AsksAgain, Denies, OnlyPrimary};
ghost use Rattle.worked_run.specs.ReplicaAgents.{ProposesAfter, Queues, Returns, Ups};
ghost use Rattle.worked_run.specs.ReplicaDatagrams.{Datagrams};
ghost use Rattle.worked_run.specs.ReplicaLeading.{Catches, Inherits, Leads, Prepares, Promises, Refuses, Silence};
ghost use Rattle.worked_run.specs.ReplicaMuxes.{Acknowledges, AcknowledgesTwice, FreedDue, GrantsDue, Hellos, Orders};
ghost use Rattle.worked_run.specs.ReplicaMuxes.{Proposes, Pushes, PushesSome};
ghost use Rattle.worked_run.specs.ReplicaRun.{Elects, Grants, Reserves};
ghost use Rattle.worked_run.specs.ReplicaVoting.{Accepts, Counts, Fetches, Learns};

/// Each step of the replicas in the run: the entry, the acts, the notes and the datagrams of its line.
pub fn managers_run()
    ensures elects { Elects }
    ensures reserves { Reserves }
    ensures grants { Grants }
{}

/// Who leads, and what the log gets.
pub fn agreement_rows()
    ensures silence { Silence }
    ensures prepares { Prepares }
    ensures promises { Promises }
    ensures catches { Catches }
    ensures inherits { Inherits }
    ensures refuses { Refuses }
    ensures leads { Leads }
    ensures accepts { Accepts }
    ensures counts { Counts }
    ensures learns { Learns }
    ensures fetches { Fetches }
{}

/// What muxes say, what is due by it, and what they are told again.
pub fn muxes_rows()
    ensures hellos { Hellos }
    ensures acknowledges { Acknowledges }
    ensures acknowledges_twice { AcknowledgesTwice }
    ensures granted { GrantsDue }
    ensures freed { FreedDue }
    ensures pushes { Pushes }
    ensures pushes_some { PushesSome }
    ensures proposes { Proposes }
    ensures orders { Orders }
{}

/// What agents ask, and what they are told.
pub fn agents_rows()
    ensures only_primary { OnlyPrimary }
    ensures asks { Asks }
    ensures asks_again { AsksAgain }
    ensures queues { Queues }
    ensures denies { Denies }
    ensures returns { Returns }
    ensures ups { Ups }
    ensures proposes_after { ProposesAfter }
{}

/// Datagrams that a manager doesn't take.
pub fn untaken_rows()
    ensures { Datagrams }
{}
