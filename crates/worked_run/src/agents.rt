ghost use Rattle.worked_run.specs.AgentLeases.{Answered, AsksAgain, Denies, GrantsTaken, Holds, Idles};
ghost use Rattle.worked_run.specs.AgentLimits.{LongPackets, TablesFull};
ghost use Rattle.worked_run.specs.AgentPackets.{Endpoints, ForAnother, Ports, Redirects, Resets, Undelivered, Unsent};
ghost use Rattle.worked_run.specs.AgentPackets.{Untaken};
ghost use Rattle.worked_run.specs.AgentRanges.{AsksLater, EightPorts, InOrder, Opens, OwnMachines, StayHeld};
ghost use Rattle.worked_run.specs.AgentRun.{AgentLines};
ghost use Rattle.worked_run.specs.AgentUses.{Entries, FirstFault, Moves, Peers, Uses};

/// Each step of the host agent in the run: the acts, the notes and the datagrams of its line.
pub fn agent_run()
    ensures { AgentLines }
{}

/// What an agent holds, asks and gives back, and what it makes of the replicas' answers.
pub fn leases_rows()
    ensures holds { Holds }
    ensures denies { Denies }
    ensures grants { GrantsTaken }
    ensures idles { Idles }
    ensures asks_again { AsksAgain }
    ensures answered { Answered }
{}

/// What becomes of packets from its machines and to them.
pub fn machines_rows()
    ensures ports { Ports }
    ensures unsent { Unsent }
    ensures undelivered { Undelivered }
    ensures for_another { ForAnother }
    ensures resets { Resets }
    ensures endpoints { Endpoints }
    ensures redirects { Redirects }
    ensures untaken { Untaken }
{}

/// Which ranges and ports an agent uses, what stays held, what is asked of whom, and that machines have their own.
pub fn ranges_rows()
    ensures opens { Opens }
    ensures in_order { InOrder }
    ensures eight_ports { EightPorts }
    ensures stay_held { StayHeld }
    ensures asks_later { AsksLater }
    ensures own_machines { OwnMachines }
{}

/// What is used and what ends: connections, inbound entries, peers.
pub fn uses_rows()
    ensures uses { Uses }
    ensures entries { Entries }
    ensures moves { Moves }
    ensures first_fault { FirstFault }
    ensures peers { Peers }
{}

/// What an agent does at its limits: lists that are full, and a packet that is too long to wrap.
pub fn agent_limits()
    ensures full { TablesFull }
    ensures long { LongPackets }
{}
