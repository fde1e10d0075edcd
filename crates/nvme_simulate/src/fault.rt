// Why a simulation has no answer.
use nvme_simulation::SimulationFault;
use std::alloc::AllocError;
use thiserror::Error;

/// What is written of a simulation.
#[derive(Clone, Copy, Debug, PartialEq, Eq)]
pub enum Stream {
    /// The numbers.
    Answer,
    /// A line for each finished command.
    Log,
    /// A line for each pick.
    Trace,
    /// The picture.
    Chart,
}

/// Why a simulation has no answer.
#[derive(Clone, Copy, Debug, PartialEq, Eq, Error)]
pub enum SimulateFault {
    /// Memory was refused.
    #[error("out of memory")]
    NoMemory,
    /// The simulation stopped.
    #[error("{0}")]
    Simulation(SimulationFault),
    /// A write to this stream failed.
    #[error("write failed")]
    Write(Stream),
}

impl From<AllocError> for SimulateFault {
    fn from(_error: AllocError) -> SimulateFault {
        SimulateFault::NoMemory
    }
}

impl From<SimulationFault> for SimulateFault {
    fn from(fault: SimulationFault) -> SimulateFault {
        match fault {
            SimulationFault::Memory => SimulateFault::NoMemory,
            fault => SimulateFault::Simulation(fault),
        }
    }
}
