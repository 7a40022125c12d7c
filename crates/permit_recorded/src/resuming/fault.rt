//! Why an office isn't opened with its history.

use permit_journal::file::FileError;
use permit_replay::opening::fault::BringFault;

/// Why an office isn't opened with its history.
#[derive(Drop)]
pub enum ResumeFault {
    /// The store isn't brought to the end of the text.
    Bring(BringFault),
    /// A call of the history's file failed, or memory was refused for its text.
    File,
}

impl From<BringFault> for ResumeFault {
    ghost use Rattle.std.specs.Prelude.{◌≡◌};
    ghost use Rattle.permit_recorded.specs.declared.resuming.fault.ResumeFault.TheVariants.{Bring};

    ghost from_gives = { λ why fault. fault ≡ Bring why };

    fn from(why: BringFault) -> ResumeFault {
        ResumeFault::Bring(why)
    }
}

impl From<FileError> for ResumeFault {
    ghost use Rattle.std.specs.Prelude.{◌≡◌};
    ghost use Rattle.permit_recorded.specs.declared.resuming.fault.ResumeFault.TheVariants.{File};

    ghost from_gives = { λ _ fault. fault ≡ File };

    fn from(_error: FileError) -> ResumeFault {
        ResumeFault::File
    }
}
