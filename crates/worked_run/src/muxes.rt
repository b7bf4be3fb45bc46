ghost use Rattle.worked_run.specs.MuxLimits.{FlowsFull, TooLongToWrap};
ghost use Rattle.worked_run.specs.MuxOrders.{IsRefused, NotIts, Programs, Redirects, Unprograms, Untaken};
ghost use Rattle.worked_run.specs.MuxPackets.{Forwards, Notes, Refusals, Ticks};
ghost use Rattle.worked_run.specs.MuxRun.{MuxLines};

/// Each step of the mux in the run: the entry, the notes and the datagrams of its line.
pub fn mux_run()
    ensures { MuxLines }
{}

/// What replicas command a mux, and what isn't for it.
pub fn orders_rows()
    ensures refused { IsRefused }
    ensures programs { Programs }
    ensures unprograms { Unprograms }
    ensures not_its { NotIts }
    ensures untaken { Untaken }
    ensures redirects { Redirects }
{}

/// What becomes of packets at a mux, and of its flows.
pub fn packets_rows()
    ensures refusals { Refusals }
    ensures forwards { Forwards }
    ensures notes { Notes }
    ensures ticks { Ticks }
{}

/// What a mux does at its limits: packets that are too long to wrap, and lists of flows that are full.
pub fn mux_limits()
    ensures long { TooLongToWrap }
    ensures full { FlowsFull }
{}
