// What is wrong with the arguments.
use thiserror::Error;

#[derive(Clone, Copy, PartialEq, Eq, Debug, Error)]
pub enum ArgumentFault {
    #[error("COMPOSITION, START and PAGEFILE are missing")]
    NoArguments,
    #[error("START and PAGEFILE are missing")]
    NoStart,
    #[error("PAGEFILE is missing")]
    NoPage,
    #[error("--row lacks its number")]
    NoRow,
    #[error("--bus lacks its kind")]
    NoBus,
    #[error("--frames lacks its number")]
    NoFrames,
    #[error("--cursor lacks its place")]
    NoCursor,
    #[error("COMPOSITION is not eight hexadecimal digits")]
    BadComposition,
    #[error("START is not two hexadecimal digits from 20 to 3F")]
    BadStart,
    #[error("the number of --row is not one from 1 to 255")]
    BadRow,
    #[error("the kind of --bus is not free, turns:A:B with A and B from 0 to 255, or spans:F+N,F+N,..")]
    BadBus,
    #[error("the number of --frames is not one from 1 to 65535")]
    BadFrames,
    #[error("the place of --cursor is not C,R with C and R from 0 to 255")]
    BadCursor,
    #[error("--frames needs --bus")]
    FramesWithoutBus,
    #[error("there are no options but --row, --words, --bus, --frames, --cursor and --help")]
    UnknownOption,
    #[error("there is an argument too many")]
    TooMany,
}
