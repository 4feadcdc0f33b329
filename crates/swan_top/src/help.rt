// The texts of the words --help and --version.

/// The text that `--version` writes.
pub const VERSION: &str = "swan 0.1.0\n";

/// The text that `--help` writes.
pub const HELP: &str = "\
swan runs jobs: trees of tasks over objects and hyperqueues. What it writes is what the serial
elision of the job writes, in which each spawn is an ordinary call.

  swan check JOB
      reads and checks a job, and writes its text in the one canonical form
  swan elide FUEL JOB INPUT*
      runs the job's serial elision, with FUEL units of fuel
  swan run WORKERS FUEL JOB INPUT*
      runs the job with WORKERS workers and FUEL units of fuel
  swan index WORKERS INPUT
      writes the index of a text: each word with the number of each line on which it stands
  swan convert WORKERS INPUT
      writes the fields of each line, which TAB bytes part, as netstrings; a line with another number
      of fields than the first one, or with netstrings of more than 1048576 bytes, is a fault
  swan bulk NUMBER SIZE WORKERS
      runs a generated job over SIZE generated lines, each a number below 1000, from NUMBER mod 1000
      on; it writes their sum and how many they are
  swan --help
      writes this text
  swan --version
      writes the version

FUEL is 1 to 1000000000, and WORKERS 1 to 256. NUMBER is 0 to 1000000000, and SIZE 0 to 300000. Numbers
have no sign and no leading zero. The texts are the same for every number of workers.
JOB and each INPUT name a file.
The items that are left in the job's outputs go to standard output. A report goes to standard error:
the job's objects, how many items are left in its inputs, and the faults.

The exit status is 0 where the run has no fault, 1 where it has one, 2 where the words are no
command, 3 where the job is refused, 4 where a file can't be read or is too long, 5 where a text
can't be written, 6 where memory runs out, 7 where the inputs are refused.

For example: swan run 1 100 examples/hello.swan
Where four processors are free, swan run 4 10000000 examples/quarters.swan is done sooner than with
one worker.
The language of jobs is explained in docs/LANGUAGE.md, and docs/swan.1 is the manual page.
";
