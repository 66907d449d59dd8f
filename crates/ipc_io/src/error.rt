//! The errors of readers and writers.
ghost use Rattle.std.specs.Prelude.{◌≡◌};

use ipc_flatbuf::{IpcReadError, IpcWriteError};
use std::alloc::{AllocError, AllocFailed};
use std::io;
use thiserror::Error;

/// Error returned by a writer.
#[derive(Clone, Copy, Debug, Error)]
pub enum WriteError {
    /// The schema, record batch or footer cannot be written, or an allocation failed. Nothing was written, and the writer can be used on.
    #[error("{0}")]
    Ipc(IpcWriteError),
    /// The inner writer failed, or an allocation failed after a dictionary was written (`OutOfMemory`). A prefix of the bytes may have been
    /// written, and the writer writes nothing more.
    #[error("{0}")]
    Io(io::Error),
    /// An earlier call failed with `Io`. Nothing was written.
    #[error("an earlier write failed")]
    Failed,
}

impl From<IpcWriteError> for WriteError {
    ghost use Rattle.ipc_io.specs.declared.error.WriteError.TheVariants.{Ipc};

    ghost from_gives = { λ error e. e ≡ Ipc error };

    fn from(error: IpcWriteError) -> WriteError {
        WriteError::Ipc(error)
    }
}

impl From<AllocError> for WriteError {
    ghost use Rattle.ipc_flatbuf.specs.declared.error.IpcWriteError.TheVariants.{Memory};
    ghost use Rattle.ipc_io.specs.declared.error.WriteError.TheVariants.{Ipc};

    ghost from_gives = { λ _ e. e ≡ Ipc Memory };

    fn from(_error: AllocError) -> WriteError {
        WriteError::Ipc(IpcWriteError::Memory)
    }
}

impl<T: Drop> From<AllocFailed<T>> for WriteError {
    ghost use Rattle.ipc_flatbuf.specs.declared.error.IpcWriteError.TheVariants.{Memory};
    ghost use Rattle.ipc_io.specs.declared.error.WriteError.TheVariants.{Ipc};

    ghost from_gives = { λ _ e. e ≡ Ipc Memory };

    fn from(_error: AllocFailed<T>) -> WriteError {
        WriteError::Ipc(IpcWriteError::Memory)
    }
}

/// Error returned by a reader.
#[derive(Clone, Copy, Debug, Error)]
pub enum ReadError {
    /// The first error in the order of the bytes, or a failed allocation (`Memory`).
    #[error("{0}")]
    Ipc(IpcReadError),
    /// The inner reader failed.
    #[error("{0}")]
    Io(io::Error),
}

impl From<IpcReadError> for ReadError {
    ghost use Rattle.ipc_io.specs.declared.error.ReadError.TheVariants.{Ipc};

    ghost from_gives = { λ error e. e ≡ Ipc error };

    fn from(error: IpcReadError) -> ReadError {
        ReadError::Ipc(error)
    }
}

impl From<AllocError> for ReadError {
    ghost use Rattle.ipc_flatbuf.specs.declared.error.IpcReadError.TheVariants.{Memory};
    ghost use Rattle.ipc_io.specs.declared.error.ReadError.TheVariants.{Ipc};

    ghost from_gives = { λ _ e. e ≡ Ipc Memory };

    fn from(_error: AllocError) -> ReadError {
        ReadError::Ipc(IpcReadError::Memory)
    }
}

impl<T: Drop> From<AllocFailed<T>> for ReadError {
    ghost use Rattle.ipc_flatbuf.specs.declared.error.IpcReadError.TheVariants.{Memory};
    ghost use Rattle.ipc_io.specs.declared.error.ReadError.TheVariants.{Ipc};

    ghost from_gives = { λ _ e. e ≡ Ipc Memory };

    fn from(_error: AllocFailed<T>) -> ReadError {
        ReadError::Ipc(IpcReadError::Memory)
    }
}
