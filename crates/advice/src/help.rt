//! What users read who give no words: each command in a line, and an example.

/// The commands in short, and what to try.
pub(crate) const SHORT_HELP: &str = "\
swimsim simulates clusters of the SWIM membership protocol. Its commands:

  init     prints a scenario to begin with, with a comment on each key
  check    reads a scenario, and prints how many members it has
  explain  prints what a scenario means, or all errors of one that is refused
  expand   prints the plain entries that a scenario stands for
  run      runs a scenario, and writes its trace
  sweep    runs a scenario by many seeds and settings, and writes a table
  join     puts the shards of a sweep together
  page     makes a sweep's page of the shards of its table
  drive    runs a scenario whose members are another program's

To try it:

  swimsim init lan > lan.toml
  swimsim run lan.toml --trace trace.csv --page page.html

swimsim --help and swimsim COMMAND --help say more.
";
