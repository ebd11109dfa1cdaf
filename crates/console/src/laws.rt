// Laws of reading lines: each function's contract is one.
ghost use Rattle.console.specs.Lines.{SpacesDoNotMatter, CommentsSayNothing};
ghost use Rattle.console.specs.Slips.{SlipSpacesDoNotMatter, SlipCommentsSayNothing};

// How many spaces stand between words, before them or behind them does not matter.
pub fn spaces_do_not_matter()
    ensures { SpacesDoNotMatter }
{}

// A line that begins with '#' asks for nothing, whatever stands behind it.
pub fn comments_say_nothing()
    ensures { CommentsSayNothing }
{}

// The same of a slip's lines.
pub fn slip_spaces_do_not_matter()
    ensures { SlipSpacesDoNotMatter }
{}

pub fn slip_comments_say_nothing()
    ensures { SlipCommentsSayNothing }
{}
