/// A call of something outside failed: the count of its object rose, or stands at its greatest value.
#[derive(Clone, Copy, Debug, PartialEq, Eq)]
pub struct Failed;
