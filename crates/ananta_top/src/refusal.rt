/// Why a text has no answer.
#[derive(Debug, Drop)]
pub enum Refusal {
    /// The number of a schedule's first bad line.
    Line(u64),
    /// A configuration that is no JSON.
    Json,
    /// The path of a configuration's first fault.
    Field(String),
    NoMemory,
}
