//! Configurations of sites.

/// The run's: one mux, one agent with one machine, one VIP.
pub const RUN: &str = "\
    {\"version\":1,\"router\":\"10.7.0.1:7000\",\"replicas\":[\"10.0.0.1:7000\",\"10.0.0.2:7000\",\"10.0\
    .0.3:7000\",\"10.0.0.4:7000\",\"10.0.0.5:7000\"],\"muxes\":[\"10.9.0.1:7000\"],\"agents\":[{\"socket\
    \":\"10.8.0.1:7000\",\"machines\":[{\"address\":\"10.1.0.4\",\"attach\":\"10.1.0.4:9000\"}]}],\"vips\
    \":[{\"address\":\"192.0.2.10\",\"low\":1024,\"high\":65535,\"snat\":[\"10.1.0.4\"],\"endpoints\":[]\
    }],\"limit\":16,\"timers\":{\"lead_silent\":1000,\"mux_silent\":5000,\"ask_retry\":500,\"flow_idle\"\
    :60000,\"range_idle\":30000}}";

/// The same, where a machine may have one lease.
pub const ONE_LEASE: &str = "\
    {\"version\":1,\"router\":\"10.7.0.1:7000\",\"replicas\":[\"10.0.0.1:7000\",\"10.0.0.2:7000\",\"10.0\
    .0.3:7000\",\"10.0.0.4:7000\",\"10.0.0.5:7000\"],\"muxes\":[\"10.9.0.1:7000\"],\"agents\":[{\"socket\
    \":\"10.8.0.1:7000\",\"machines\":[{\"address\":\"10.1.0.4\",\"attach\":\"10.1.0.4:9000\"}]}],\"vips\
    \":[{\"address\":\"192.0.2.10\",\"low\":1024,\"high\":65535,\"snat\":[\"10.1.0.4\"],\"endpoints\":[]\
    }],\"limit\":1,\"timers\":{\"lead_silent\":1000,\"mux_silent\":5000,\"ask_retry\":500,\"flow_idle\":\
    60000,\"range_idle\":30000}}";

/// Two muxes, two agents with a machine each, and a VIP of eight ranges.
pub const TWO_AGENTS: &str = "\
    {\"version\":1,\"router\":\"10.7.0.1:7000\",\"replicas\":[\"10.0.0.1:7000\",\"10.0.0.2:7000\",\"10.0\
    .0.3:7000\",\"10.0.0.4:7000\",\"10.0.0.5:7000\"],\"muxes\":[\"10.9.0.1:7000\",\"10.9.0.2:7000\"],\"a\
    gents\":[{\"socket\":\"10.8.0.1:7000\",\"machines\":[{\"address\":\"10.1.0.4\",\"attach\":\"10.1.0.4\
    :9000\"}]},{\"socket\":\"10.8.0.2:7000\",\"machines\":[{\"address\":\"10.1.0.5\",\"attach\":\"10.1.0\
    .5:9000\"}]}],\"vips\":[{\"address\":\"192.0.2.10\",\"low\":1024,\"high\":1087,\"snat\":[\"10.1.0.4\
    \",\"10.1.0.5\"],\"endpoints\":[]}],\"limit\":16,\"timers\":{\"lead_silent\":1000,\"mux_silent\":500\
    0,\"ask_retry\":500,\"flow_idle\":60000,\"range_idle\":30000}}";

/// The same, where the VIP has one range.
pub const ONE_RANGE: &str = "\
    {\"version\":1,\"router\":\"10.7.0.1:7000\",\"replicas\":[\"10.0.0.1:7000\",\"10.0.0.2:7000\",\"10.0\
    .0.3:7000\",\"10.0.0.4:7000\",\"10.0.0.5:7000\"],\"muxes\":[\"10.9.0.1:7000\",\"10.9.0.2:7000\"],\"a\
    gents\":[{\"socket\":\"10.8.0.1:7000\",\"machines\":[{\"address\":\"10.1.0.4\",\"attach\":\"10.1.0.4\
    :9000\"}]},{\"socket\":\"10.8.0.2:7000\",\"machines\":[{\"address\":\"10.1.0.5\",\"attach\":\"10.1.0\
    .5:9000\"}]}],\"vips\":[{\"address\":\"192.0.2.10\",\"low\":1024,\"high\":1031,\"snat\":[\"10.1.0.4\
    \",\"10.1.0.5\"],\"endpoints\":[]}],\"limit\":16,\"timers\":{\"lead_silent\":1000,\"mux_silent\":500\
    0,\"ask_retry\":500,\"flow_idle\":60000,\"range_idle\":30000}}";
