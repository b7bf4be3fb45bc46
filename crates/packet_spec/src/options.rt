/// What stands at a place among the options of a TCP header.
#[derive(Clone, Copy, Debug, PartialEq, Eq)]
pub enum OptionStep {
    /// The options end here, by kind 0, by a length below 2 or past the end, or because no byte is left.
    Stop,
    /// A maximum segment size, whose value stands at this place.
    Size(usize),
    /// Another option; the next one begins at this place.
    Next(usize),
}
