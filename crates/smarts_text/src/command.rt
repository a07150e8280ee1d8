ghost use Rattle.std.specs.Prelude.{◌≡◌, ◌<◌, ◌≤◌, map, option_map, string_bytes, IfSome, []};
ghost use Rattle.smarts_text.specs.Asked.{number_in};
ghost use Rattle.smarts_text.specs.Command.{command_in, groups_of, required_key, IsSound};
ghost use Rattle.smarts_text.specs.Keys as key_specs;

use crate::asked::{design, number, test};
use crate::configured::config;
use crate::keys::{self, Group, Key};
use crate::processor::{Asked, asked_processor};
use crate::recorded::records;
use confidence::Test;
use hierarchy::Config;
use live_points::Records;
use sample_design::Design;

/// What the words of a command line ask for.
#[derive(Debug, Drop)]
pub enum Command {
    /// To simulate a sample of the program's run.
    Sample {
        design: Design,
        config: Config,
        test: Test,
    },
    /// To simulate a sample of the run of a generated program, of this size from 1 to 1,000,000.
    Demo {
        size: u32,
        design: Design,
        config: Config,
        test: Test,
    },
    /// To write the library of the program's run.
    Warm {
        design: Design,
        records: Records,
    },
    /// To write a library with its shared words standing once.
    Migrate,
    /// To estimate from a library alone, with so many workers, from 1 to 64.
    Estimate {
        asked: Asked,
        test: Test,
        workers: u32,
    },
    /// To run the program, for at most `budget` instructions, from 1 to 2^36.
    Run {
        budget: u64,
    },
}

impl Command {
    /// What the words ask of the command of this name, whether they are at fault or not.
    #[tactic(auto, unfolding(crate::specs::Command::command_in, crate::specs::Asked::design_in))]
    pub(crate) fn asked_by(name: &str, words: &[String]) -> Option<Command>
        ensures value { result ≡ command_in name.now (map string_bytes words.now) }
        ensures sound { number_in [] (map string_bytes words.now) key_specs.lsq_key ≤ number_in [] (map string_bytes words.now) key_specs.ruu_key
            → number_in [] (map string_bytes words.now) key_specs.offset_key < number_in [] (map string_bytes words.now) key_specs.every_key
            → IfSome result IsSound }
    {
        match name {
            "sample" => Some(Command::Sample {
                design: design(words),
                config: config(words, ""),
                test: test(words),
            }),
            "demo" => Some(Command::Demo {
                size: number(words, "", &keys::SIZE) as u32,
                design: design(words),
                config: config(words, ""),
                test: test(words),
            }),
            "warm" => Some(Command::Warm {
                design: design(words),
                records: records(words),
            }),
            "migrate" => Some(Command::Migrate),
            "estimate" => Some(Command::Estimate {
                asked: asked_processor(words, ""),
                test: test(words),
                workers: number(words, "", &keys::WORKERS) as u32,
            }),
            "run" => Some(Command::Run {
                budget: number(words, "", &keys::BUDGET),
            }),
            _ => None,
        }
    }

    /// The groups whose keys the command has.
    pub(crate) fn groups(&self) -> &'static [Group]
        ensures { result.now ≡ groups_of self.now }
    {
        match self {
            Command::Sample { .. } => &[
                Group::Design,
                Group::Budget,
                Group::Test,
                Group::Caches,
                Group::Predictor,
                Group::Timing,
            ],
            Command::Demo { .. } => &[
                Group::Size,
                Group::Design,
                Group::Budget,
                Group::Test,
                Group::Caches,
                Group::Predictor,
                Group::Timing,
            ],
            Command::Warm { .. } => &[
                Group::Design,
                Group::Budget,
                Group::Caches,
                Group::Predictors,
            ],
            Command::Migrate => &[],
            Command::Estimate { .. } => &[
                Group::Test,
                Group::Workers,
                Group::Caches,
                Group::Predictor,
                Group::Timing,
            ],
            Command::Run { .. } => &[Group::Budget],
        }
    }

    /// The key that has no default: the command has to be given it.
    pub(crate) fn required_key(&self) -> Option<Key>
        ensures { option_map key_specs.key_of result ≡ required_key self.now }
    {
        match self {
            Command::Demo { .. } => Some(keys::SIZE),
            _ => None,
        }
    }
}
