ghost use Rattle.std.specs.Prelude.{◌≡◌};
ghost use Rattle.command_faults.specs.Lines.{code_of};

use crate::input_fault::InputFault;
use crate::refusal::CertRefusal;
use adpcm_nums::Text;
use loop_fit::FitFault;
use manifest_reader::ManifestFault;

/// How a run ended.
#[derive(Debug, Drop)]
pub enum Status {
    /// The job was done.
    Done,
    /// The words are no command.
    Words,
    /// The manifest has a fault.
    Manifest {
        /// The first fault of the manifest.
        fault: ManifestFault,
    },
    /// A fetched file has a fault.
    Input {
        /// The name that the fault is told under.
        name: Text,
        /// The first fault of the file.
        fault: InputFault,
    },
    /// A sound cannot be fitted to blocks.
    Unfit {
        /// The sample's name.
        name: Text,
        /// Why it does not fit.
        fault: FitFault,
    },
    /// The bank does not fit into sound memory.
    Full {
        /// The bank's name.
        bank: Text,
        /// The end of the bank in sound memory, in bytes.
        total: u64,
    },
    /// A stored certificate does not show what it records.
    Refused {
        /// The sample's name.
        name: Text,
        /// The first reason.
        fault: CertRefusal,
    },
    /// A call of the host failed.
    Device {
        /// The call that failed.
        at: HostCall,
    },
    /// There was no memory.
    Memory,
}

/// A call of the host.
#[derive(Debug, Drop)]
pub enum HostCall {
    /// A file was to be read.
    Fetch {
        /// The file's name.
        name: Text,
    },
    /// A file was to be written.
    Store {
        /// The file's name.
        name: Text,
    },
    /// A line was to be said.
    Say,
}

impl Status {
    /// The code that the program ends with.
    pub fn code(&self) -> u8
        ensures { result ≡ code_of self.now }
    {
        match self {
            Status::Done => 0,
            Status::Words => 2,
            Status::Manifest { .. } => 3,
            Status::Input { .. } => 4,
            Status::Unfit { .. } => 5,
            Status::Full { .. } => 6,
            Status::Refused { .. } => 7,
            Status::Device { .. } => 8,
            Status::Memory => 9,
        }
    }
}
