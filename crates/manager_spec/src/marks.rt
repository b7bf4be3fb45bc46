/// Which muxes acknowledged a lease's row: by the mux's number the greatest boot in which it did, 0 where it never did.
#[derive(Clone, Copy, Debug, PartialEq, Eq)]
pub struct Marks {
    /// By a Programmed.
    pub programmed: [u64; 16],
    /// By an Unprogrammed.
    pub unprogrammed: [u64; 16],
}
