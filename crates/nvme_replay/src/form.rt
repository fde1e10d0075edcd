// The forms of the files that can be replayed.

/// The form of a file of requests.
#[derive(Clone, Copy, Debug, PartialEq, Eq)]
pub enum Form {
    /// The log of a simulation, as comma-separated values.
    Csv,
    /// A block trace of Microsoft Research Cambridge.
    Msr,
    /// A block trace of Alibaba.
    Alibaba,
    /// The text that blkparse prints by default.
    Blkparse,
    /// An I/O log of fio, of version 3.
    Fio,
}

impl Form {
    /// The form of a name.
    pub fn named(name: &str) -> Option<Form> {
        match name {
            "csv" => Some(Form::Csv),
            "msr" => Some(Form::Msr),
            "alibaba" => Some(Form::Alibaba),
            "blkparse" => Some(Form::Blkparse),
            "fio" => Some(Form::Fio),
            _ => None,
        }
    }

    // The picoseconds of a unit of its times.
    pub(crate) fn unit(self) -> u64 {
        match self {
            Form::Csv => 1,
            Form::Blkparse => 1_000,
            Form::Msr => 100_000,
            Form::Alibaba | Form::Fio => 1_000_000,
        }
    }
}
