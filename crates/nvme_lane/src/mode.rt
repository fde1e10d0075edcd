/// When the hosts of a run submit their commands.
#[derive(Clone, Copy, PartialEq, Eq, Debug)]
pub enum Mode {
    /// All of them before the first turn of the front.
    Loaded,
    /// While the front works.
    Live,
}
