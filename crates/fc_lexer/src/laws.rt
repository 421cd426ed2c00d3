//! Laws of the definitions.

ghost use Rattle.fc_lexer.specs.Apart.{ReadsBack};
ghost use Rattle.fc_lexer.specs.Laws.{AlwaysOne, NamesAreTokens, NeverBoth, OneList, OneStop, SpansRise};
ghost use Rattle.fc_lexer.specs.Laws.{TokensAreNames};

/// A text has one list of tokens, or one byte at which nothing begins, and not both.
pub fn one_reading()
    ensures one_list { OneList }
    ensures one_stop { OneStop }
    ensures never_both { NeverBoth }
    ensures always_one { AlwaysOne }
{}

/// Spans rise, and between them stand spaces and comments alone.
pub fn spans_rise()
    ensures { SpansRise }
{}

/// The text of pieces that stand apart is read as these pieces.
pub fn reads_back()
    ensures { ReadsBack }
{}

/// A piece is read as a name exactly where it is one.
pub fn names_are_read()
    ensures read { NamesAreTokens }
    ensures only { TokensAreNames }
{}
