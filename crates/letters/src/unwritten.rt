// Why a letter is not written.
use entry_log::waiting::MAX_LETTER_ENTRIES;
use thiserror::Error;

#[derive(Clone, Copy, Debug, PartialEq, Eq, Error)]
pub enum Unwritten {
    #[error("the letter has more than {most} entries", most = MAX_LETTER_ENTRIES)]
    TooMany,
    #[error("the buffer has no room for the letter")]
    NoRoom,
}
