//! Laws of the lexer. A caller calls one for what it ensures.

ghost use Rattle.cb_lex.specs.Laws.{LexesOnce, TakesTheLongest, ReadsKeywords, ReadsSigns};

/// A text is cut in one way: into one list of tokens, or up to one first fault.
pub fn lexes_once()
    ensures { LexesOnce }
{}

/// Always the longest token is taken.
pub fn takes_the_longest()
    ensures { TakesTheLongest }
{}

/// Each keyword and each sign is read, and only from its own letters.
pub fn reads_keywords_and_signs()
    ensures keywords { ReadsKeywords }
    ensures signs { ReadsSigns }
{}
