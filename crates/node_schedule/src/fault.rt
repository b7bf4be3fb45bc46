/// Why a text has no transcript, or why it isn't written to its end.
#[derive(Debug, Drop)]
pub enum ScheduleFault {
    /// The configuration is no JSON.
    Json,
    /// The path of the configuration's first fault, such as `vips[0].low`.
    Field(String),
    /// The number of the first bad line, from 1 behind the line `---`; 0 where there is no such line.
    Line(u64),
    /// An entry would pass the bound of a node's journal.
    Full,
    /// A call of the sink failed.
    Write,
    NoMemory,
}
