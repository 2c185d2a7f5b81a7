//! What the definitions say of example command lines. These functions are theorems: calling them does nothing.

ghost use Rattle.std.specs.Prelude.{◌≡◌, [], ◌∷◌, ◌++◌, Some, None, codes, map};
ghost use Rattle.clap.specs.Words.{Text};
ghost use Rattle.vt_command.specs.inside.Line.{all_given_in, given_in, run_options, replay_options, line_with};
ghost use Rattle.vt_command.specs.promise.Requests.{AskHelp};
ghost use Rattle.vt_command.specs.inside.Requests.{AreOfRun, AreOfReplay, AskRun, AskReplay, HasBadOption, HasNoMeaning};
ghost use Rattle.vt_command.specs.inside.Defaults.{default_settings, default_replay_settings, default_hop, default_phold, default_stations};

/// A line without options, or with a model's name alone, is a run or a replay with the defaults.
pub fn defaults_are_read()
    ensures run { AskRun (codes "twarp" ∷ codes "run" ∷ []) default_settings 0 default_hop }
    ensures run_hop { AskRun (codes "twarp" ∷ codes "run" ∷ codes "--model=hop" ∷ []) default_settings 0 default_hop }
    ensures run_phold { AskRun (codes "twarp" ∷ codes "run" ∷ codes "--model=phold" ∷ []) default_settings 1 default_phold }
    ensures run_stations { AskRun (codes "twarp" ∷ codes "run" ∷ codes "--model=stations" ∷ []) default_settings 2 default_stations }
    ensures replay { AskReplay (codes "twarp" ∷ codes "replay" ∷ []) default_replay_settings 0 default_hop }
    ensures replay_stations { AskReplay (codes "twarp" ∷ codes "replay" ∷ codes "--model=stations" ∷ []) default_replay_settings 2 default_stations }
{}

/// A line may give each option that takes a value any text behind `=`. It belongs to its subcommand, and each option has its text.
pub fn texts_are_given()
    ensures run { (text_of : Text → Text) → AreOfRun (line_with (codes "run") run_options text_of) }
    ensures given { (text_of : Text → Text) → map (given_in (line_with (codes "run") run_options text_of)) run_options ≡ map (λ name. Some (text_of name)) run_options }
    ensures replay { (text_of : Text → Text) → AreOfReplay (line_with (codes "replay") replay_options text_of) }
    ensures given_to_replay { (text_of : Text → Text) → map (given_in (line_with (codes "replay") replay_options text_of)) replay_options ≡ map (λ name. Some (text_of name)) replay_options }
{}

/// An option's text may also be a word of its own. An option that isn't given has no text. A flag has the text `true` or `false`.
pub fn values_are_read()
    ensures apart { given_in (codes "twarp" ∷ codes "run" ∷ codes "--lps" ∷ codes "3" ∷ codes "--end=7" ∷ []) (codes "lps") ≡ Some (codes "3") }
    ensures joined { given_in (codes "twarp" ∷ codes "run" ∷ codes "--lps" ∷ codes "3" ∷ codes "--end=7" ∷ []) (codes "end") ≡ Some (codes "7") }
    ensures absent { given_in (codes "twarp" ∷ codes "run" ∷ codes "--lps" ∷ codes "3" ∷ codes "--end=7" ∷ []) (codes "seed") ≡ None }
    ensures flag { given_in (codes "twarp" ∷ codes "run" ∷ codes "--finals" ∷ []) (codes "finals") ≡ Some (codes "true") }
    ensures no_flag { given_in (codes "twarp" ∷ codes "run" ∷ []) (codes "finals") ≡ Some (codes "false") }
    ensures one { (text : Text) → given_in (codes "twarp" ∷ codes "run" ∷ (codes "--seed=" ++ text) ∷ []) (codes "seed") ≡ Some text }
{}

/// `--help`, `-h` and `help` ask for help on the program or on a subcommand.
pub fn help_is_asked_for()
    ensures of_the_program { AskHelp (codes "twarp" ∷ codes "--help" ∷ []) }
    ensures of_run { AskHelp (codes "twarp" ∷ codes "run" ∷ codes "--help" ∷ []) }
    ensures of_replay { AskHelp (codes "twarp" ∷ codes "replay" ∷ codes "--help" ∷ []) }
    ensures short { AskHelp (codes "twarp" ∷ codes "run" ∷ codes "-h" ∷ []) }
    ensures by_word { AskHelp (codes "twarp" ∷ codes "help" ∷ codes "run" ∷ []) }
{}

/// A line has no meaning if it has no subcommand, another word, or an option that is unknown or given twice.
pub fn other_lines_have_no_meaning()
    ensures nothing { HasNoMeaning (codes "twarp" ∷ []) }
    ensures other { HasNoMeaning (codes "twarp" ∷ codes "walk" ∷ []) }
    ensures unknown { HasNoMeaning (codes "twarp" ∷ codes "run" ∷ codes "--speed" ∷ codes "3" ∷ []) }
    ensures twice { HasNoMeaning (codes "twarp" ∷ codes "run" ∷ codes "--lps" ∷ codes "3" ∷ codes "--lps" ∷ codes "3" ∷ []) }
    ensures no_value { HasNoMeaning (codes "twarp" ∷ codes "run" ∷ codes "--lps" ∷ []) }
    ensures flag_with_value { HasNoMeaning (codes "twarp" ∷ codes "run" ∷ codes "--finals=yes" ∷ []) }
    ensures finals_of_replay { HasNoMeaning (codes "twarp" ∷ codes "replay" ∷ codes "--finals" ∷ []) }
    ensures of_replay_alone { HasNoMeaning (codes "twarp" ∷ codes "run" ∷ codes "--serial" ∷ codes "1" ∷ []) }
    ensures of_run_alone { HasNoMeaning (codes "twarp" ∷ codes "replay" ∷ codes "--synch" ∷ codes "1" ∷ []) }
{}

/// The first bad option is the first in the order of the table, not of the line.
pub fn first_bad_is_of_the_table()
    ensures lps { HasBadOption (codes "twarp" ∷ codes "run" ∷ codes "--end" ∷ codes "0" ∷ codes "--lps" ∷ codes "65537" ∷ []) (codes "lps") }
    ensures synch { HasBadOption (codes "twarp" ∷ codes "run" ∷ codes "--workers" ∷ codes "0" ∷ codes "--synch" ∷ codes "2" ∷ []) (codes "synch") }
    ensures model { HasBadOption (codes "twarp" ∷ codes "run" ∷ codes "--synch" ∷ codes "2" ∷ codes "--model" ∷ codes "token" ∷ []) (codes "model") }
    ensures serial { HasBadOption (codes "twarp" ∷ codes "replay" ∷ codes "--serial" ∷ codes "9223372036854775809" ∷ []) (codes "serial") }
    ensures last { HasBadOption (codes "twarp" ∷ codes "replay" ∷ codes "--serial" ∷ codes "x" ∷ codes "--travel" ∷ codes "0" ∷ []) (codes "travel") }
    ensures unused { HasBadOption (codes "twarp" ∷ codes "run" ∷ codes "--travel" ∷ codes "0" ∷ []) (codes "travel") }
    ensures workers { HasBadOption (codes "twarp" ∷ codes "run" ∷ codes "--lps" ∷ codes "0" ∷ codes "--workers" ∷ codes "257" ∷ []) (codes "workers") }
    ensures before_rise { HasBadOption (codes "twarp" ∷ codes "run" ∷ codes "--rise" ∷ codes "256" ∷ codes "--delay" ∷ codes "0" ∷ []) (codes "delay") }
    ensures rise { HasBadOption (codes "twarp" ∷ codes "run" ∷ codes "--population" ∷ codes "17" ∷ codes "--rise" ∷ codes "256" ∷ []) (codes "rise") }
    ensures text { HasBadOption (codes "twarp" ∷ codes "run" ∷ codes "--text" ∷ codes "3" ∷ []) (codes "text") }
    ensures before_text { HasBadOption (codes "twarp" ∷ codes "run" ∷ codes "--text" ∷ codes "0" ∷ codes "--turns" ∷ codes "0" ∷ []) (codes "turns") }
    ensures finals { HasBadOption (codes "twarp" ∷ codes "run" ∷ codes "--finals" ∷ codes "--text" ∷ codes "1" ∷ codes "--records=some" ∷ []) (codes "finals") }
    ensures before_finals { HasBadOption (codes "twarp" ∷ codes "run" ∷ codes "--finals" ∷ codes "--text" ∷ codes "3" ∷ []) (codes "text") }
    ensures records { HasBadOption (codes "twarp" ∷ codes "run" ∷ codes "--finals" ∷ codes "--records=some" ∷ codes "--fuel=0" ∷ []) (codes "records") }
    ensures text_of_replay { HasBadOption (codes "twarp" ∷ codes "replay" ∷ codes "--text" ∷ codes "x" ∷ codes "--serial" ∷ codes "x" ∷ []) (codes "serial") }
{}

/// `--set` may be given any number of times, and each of its texts counts. A program's options are tested behind all others.
pub fn programs_are_read()
    ensures sets { all_given_in (codes "twarp" ∷ codes "run" ∷ codes "--set" ∷ codes "a=1" ∷ codes "--program" ∷ codes "m.elf" ∷ codes "--set=b=2" ∷ []) (codes "set") ≡ codes "a=1" ∷ codes "b=2" ∷ [] }
    ensures none { all_given_in (codes "twarp" ∷ codes "run" ∷ []) (codes "set") ≡ [] }
    ensures model { HasBadOption (codes "twarp" ∷ codes "run" ∷ codes "--program=m.elf" ∷ codes "--model=hop" ∷ []) (codes "program") }
    ensures second_set { HasBadOption (codes "twarp" ∷ codes "run" ∷ codes "--set=a=1" ∷ codes "--set=b" ∷ []) (codes "set") }
    ensures nameless { HasBadOption (codes "twarp" ∷ codes "replay" ∷ codes "--set==1" ∷ []) (codes "set") }
    ensures too_large { HasBadOption (codes "twarp" ∷ codes "run" ∷ codes "--set=a=18446744073709551616" ∷ []) (codes "set") }
    ensures fuel { HasBadOption (codes "twarp" ∷ codes "replay" ∷ codes "--fuel=4294967297" ∷ []) (codes "fuel") }
    ensures program_first { HasBadOption (codes "twarp" ∷ codes "run" ∷ codes "--fuel=0" ∷ codes "--set=a" ∷ codes "--model=hop" ∷ codes "--program=m.elf" ∷ []) (codes "program") }
    ensures set_before_fuel { HasBadOption (codes "twarp" ∷ codes "run" ∷ codes "--fuel=0" ∷ codes "--set=a" ∷ []) (codes "set") }
    ensures text_before { HasBadOption (codes "twarp" ∷ codes "run" ∷ codes "--program=m.elf" ∷ codes "--model=hop" ∷ codes "--text=3" ∷ []) (codes "text") }
{}
