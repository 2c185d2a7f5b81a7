//! The models of `twarp` with their options, and what its help shows.

ghost use Rattle.std.specs.Prelude.{◌≡◌, codes};
ghost use Rattle.vt_options.specs.inside.Own.{AllHaveDefaults, models_of};
ghost use Rattle.vt_command.specs.promise.Table.{twarp_models};

use vt_models::{
    MAX_DELAY, MAX_HOPS, MAX_JOBS, MAX_LOOKAHEAD, MAX_POPULATION, MAX_REMOTE, MAX_RISE,
    MAX_SERVICE, MAX_SPAN, MAX_STRIDE, MAX_TRAVEL,
};
use vt_options::{GENERAL, ModelOptions, ModelTable, OptionText, OwnOption, ProgramTexts, Takes};

const IN_SHORT: &str = "\
A first run: twarp run (six records of two processes). README.md tells more, docs/MODEL_IN_C.md
how to bring a model in C or another language, and docs/MODEL_GUIDE.md how to write one in Rattle.

Options (twarp run --help and twarp replay --help say what each is, its range and its default):
  every model  --model hop|phold|stations  --workers N  --lps N  --end N  --seed N  --text 1|2
  hop          --hops N  --stride N  --delay N  --rise N
  phold        --population N  --remote N  --lookahead N  --span N
  stations     --jobs N  --service N  --travel N
  a program    --program FILE (in the place of --model)  --set NAME=VALUE (any number of times)
               --data FILE  --fuel N
  run alone    --synch 1|3  --turns N  --finals  --records yes|no
  replay alone --serial N";

/// What help shows of the program: it needs a command.
pub(crate) static TEXTS: ProgramTexts = ProgramTexts {
    name: "twarp",
    about: "Simulates processes that send each other events in virtual time",
    usage: "twarp <COMMAND>",
    in_short: IN_SHORT,
};

const MODEL: OptionText = OptionText {
    name: "model",
    value: "NAME",
    heading: GENERAL,
    takes: Takes::Words {
        listed: "hop, phold or stations",
        default: "hop",
    },
    help: "Model to simulate: hop, phold or stations",
};

/// The models, `hop` first, with their options. An option that is added or changed here stands in `specs/promise/Table.antt`, in `IN_SHORT`
/// and in `tools/check-calls` too.
// Options are written in place, since a static can't refer to a static.
pub(crate) static MODELS: ModelTable<'static> = ModelTable {
    naming: Some(MODEL),
    models: &[
        ModelOptions {
            name: "hop",
            heading: "Options of the model hop, tokens that are passed round the processes",
            options: &[
                OwnOption {
                    name: "hops",
                    least: 0,
                    most: MAX_HOPS,
                    default: 2,
                    help: "How many times a token is passed on",
                },
                OwnOption {
                    name: "stride",
                    least: 0,
                    most: MAX_STRIDE,
                    default: 1,
                    help: "How many processes further each hop leads",
                },
                OwnOption {
                    name: "delay",
                    least: 1,
                    most: MAX_DELAY,
                    default: 2,
                    help: "Ticks that a hop takes",
                },
                OwnOption {
                    name: "rise",
                    least: 0,
                    most: MAX_RISE,
                    default: 0,
                    help: "What a hop adds to the priority in place of the delay",
                },
            ],
        },
        ModelOptions {
            name: "phold",
            heading: "Options of the model phold, the benchmark of parallel simulators",
            options: &[
                OwnOption {
                    name: "population",
                    least: 0,
                    most: MAX_POPULATION,
                    default: 1,
                    help: "Events that each process starts with",
                },
                OwnOption {
                    name: "remote",
                    least: 0,
                    most: MAX_REMOTE,
                    default: 0,
                    help: "Percent of events to a process drawn at random",
                },
                OwnOption {
                    name: "lookahead",
                    least: 1,
                    most: MAX_LOOKAHEAD,
                    default: 1,
                    help: "Least ticks from an event to the next",
                },
                OwnOption {
                    name: "span",
                    least: 1,
                    most: MAX_SPAN,
                    default: 1,
                    help: "Ticks drawn on top of the lookahead (below N)",
                },
            ],
        },
        ModelOptions {
            name: "stations",
            heading: "Options of the model stations, a closed network of queues with one server each",
            options: &[
                OwnOption {
                    name: "jobs",
                    least: 0,
                    most: MAX_JOBS,
                    default: 1,
                    help: "Jobs that each station has at the start",
                },
                OwnOption {
                    name: "service",
                    least: 1,
                    most: MAX_SERVICE,
                    default: 1,
                    help: "Longest service of a job in ticks, drawn from 1 on",
                },
                OwnOption {
                    name: "travel",
                    least: 1,
                    most: MAX_TRAVEL,
                    default: 1,
                    help: "Ticks of a job's way to the next station",
                },
            ],
        },
    ],
    files: &[],
    programs: true,
};

/// What the help of `twarp` shows of it.
pub fn texts() -> &'static ProgramTexts
    ensures { result.now.name.now ≡ codes "twarp" }
{
    &TEXTS
}

/// The models of `twarp` with their options: `hop`, which is meant where none is named, `phold` and `stations`. The file of a program
/// may take their place.
pub fn model_table() -> &'static ModelTable<'static>
    ensures table { models_of result.now ≡ twarp_models }
    ensures defaults { AllHaveDefaults result.now.models.now }
{
    &MODELS
}
