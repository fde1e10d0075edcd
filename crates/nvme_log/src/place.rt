/// A place: a submission region with an index, which counts that region's fetches from 0.
#[derive(Clone, Copy, Debug, PartialEq, Eq)]
pub struct Place {
    /// The number of the submission region.
    pub region: u8,
    /// How many commands were fetched from the region before.
    pub index: u32,
}
