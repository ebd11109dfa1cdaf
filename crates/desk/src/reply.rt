// What is told of a line.
use console::answer::Answer;

#[derive(Clone, Copy)]
pub enum Reply {
    // Of an empty line, or a comment.
    Nothing,
    Line(Answer),
    // The letter that was written.
    Letter,
    // What came of a letter.
    Takings,
    // The book, and the log.
    Book,
    Log,
}
