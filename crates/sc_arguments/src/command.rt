ghost use Rattle.std.specs.Prelude.{◌≡◌, map, codes, false};
ghost use Rattle.std.specs.List.{list_any};
ghost use Rattle.std.specs.Str.{bytes_eq};
ghost use Rattle.sc_arguments.specs.Arguments.{option_names};
ghost use Rattle.sc_arguments.specs.Found.{option_name};

/// What the program can be told to do.
#[derive(Clone, Copy)]
pub(crate) enum Command {
    /// Serve one connection over standard input and output.
    Script,
    /// Listen at a port.
    Serve,
    /// Make a workload.
    Demo,
}

/// The names of the options of `script`.
static SCRIPT: [&str; 6] = [
    "nodes",
    "shards",
    "replicas",
    "buckets",
    "log-limit",
    "clock",
];

/// The names of the options of `serve`.
static SERVE: [&str; 9] = [
    "nodes",
    "shards",
    "replicas",
    "buckets",
    "log-limit",
    "clock",
    "port",
    "workers",
    "max-connections",
];

/// The names of the options of `demo`.
static DEMO: [&str; 3] = ["seed", "count", "workers"];

/// The names of the command's options, without the hyphens before them.
pub(crate) fn names_of(command: Command) -> &'static [&'static str]
    ensures names { map option_name (map (λ name. name.now) result.now) ≡ option_names command }
    ensures none_ends { list_any (bytes_eq (codes "--")) (option_names command) ≡ false }
{
    match command {
        Command::Script => SCRIPT.as_slice(),
        Command::Serve => SERVE.as_slice(),
        Command::Demo => DEMO.as_slice(),
    }
}
