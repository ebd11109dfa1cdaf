// Why bytes are no entry.
use thiserror::Error;

#[derive(Clone, Copy, Debug, PartialEq, Eq, Error)]
pub enum Wrong {
    #[error("the bytes end too soon")]
    Short,
    #[error("a number is out of range")]
    Out,
}
