//! Laws of commands, in their own words.

ghost use Rattle.rd_command.specs.Commands.{FindsWhatIsSpelled, NoLineIsTwoCommands};

/// A law: the command that is found for words is what they spell, and there is one wherever they
/// spell one.
pub fn what_is_spelled_is_found()
    ensures { FindsWhatIsSpelled }
{}

/// A law: no line spells two commands.
pub fn no_line_is_two_commands()
    ensures { NoLineIsTwoCommands }
{}
