//! Worked examples of what words ask for, each computed from the definitions.
ghost use Rattle.fluid_words.specs.Examples.{Defaults, OptionsGiven, WordsTooMany, Numbers, HelpAndVersion};

/// Options that are left out and options that are given, words too many, numbers, help and version.
pub fn words_and_commands()
    ensures defaults { Defaults }
    ensures options { OptionsGiven }
    ensures too_many { WordsTooMany }
    ensures numbers { Numbers }
    ensures help_and_version { HelpAndVersion }
{}
