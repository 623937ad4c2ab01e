// Theorems about the definitions in specs/, each on the contract of a function that does nothing else.
ghost use Rattle.commands.specs.Laws.{ParsedBack, ParsedRight, ReadBack, SpelledOnce};

// No two commands are spelled alike.
pub fn spelled_once()
    ensures { SpelledOnce }
{}

// A text is parsed as a command exactly if it is spelled so and fits, and as that one.
pub fn parsed_right()
    ensures { ParsedRight }
{}

// What is spelled is parsed back, from a list or from the row that it was written to.
pub fn parsed_back()
    ensures list { ParsedBack }
    ensures row { ReadBack }
{}
