//! What holds of all words: contracts of functions with nothing to do.
ghost use Rattle.command_words.specs.Commands.{WordsSpellOneCommand};

/// No words spell two commands.
pub fn words_spell_one_command()
    ensures { WordsSpellOneCommand }
{}
