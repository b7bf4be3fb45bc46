/// What came of opening a connection.
#[derive(Clone, Copy, Debug, PartialEq, Eq)]
pub enum Opened {
    Yes,
    /// 65,536 connections are kept, and this one isn't.
    Full,
}
