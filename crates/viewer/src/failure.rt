// Why there is no listing, or only a part of one.
use crate::help::USAGE;
use arguments::fault::ArgumentFault;
use refusal::Refusal;
use sheet::stop::Stop;
use std::alloc::AllocError;
use std::io;
use thiserror::Error;

#[derive(Debug, Drop, Error)]
pub enum Failure {
    #[error("{0}\n{usage}", usage = USAGE)]
    Arguments(#[from] ArgumentFault),
    // by the console
    #[error("{0} (refusal {number})\n", number = .0.number())]
    Refused(#[from] Refusal),
    // by the console, at a row
    #[error("row {0}: {1} (refusal {number})\n", number = .1.number())]
    RowRefused(u8, Refusal),
    #[error("PAGEFILE cannot be read: {0}\n")]
    Unread(io::Error),
    #[error("the listing cannot be written: {0}\n")]
    Unwritten(#[from] io::Error),
}

impl From<Stop> for Failure {
    fn from(stop: Stop) -> Failure {
        match stop.row {
            // want of memory is not the row's
            Some(row) if stop.refusal != Refusal::OutOfMemory => {
                Failure::RowRefused(row, stop.refusal)
            }
            _ => Failure::Refused(stop.refusal),
        }
    }
}

impl From<AllocError> for Failure {
    fn from(_e: AllocError) -> Failure {
        Failure::Refused(Refusal::OutOfMemory)
    }
}
