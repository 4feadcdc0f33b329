// The command that words are.
ghost use Rattle.std.specs.Prelude.{◌≡◌, ◌<◌, ◌∷◌, [], bytes_eq, IfOk, OnErr, Some, None};
ghost use Rattle.swan_runtime.specs.declared.shape.TheConstants.{WORKERS_MOST};
ghost use Rattle.swan_top.specs.Command.{command, number_within, is_file, alone, command_of, job_alone, fueled, manned, over_input, elide, run, index, convert, three_numbers, IsWithinLimits};
ghost use Rattle.swan_top.specs.Forms.{ReadsWords, elide_or_run, FilesOf, JobOf, WorkersOf, InputOf};
ghost use Rattle.std.specs.List.{list_all};

use bulk_workload::BULK_MOST;
use job_reader::read_number;
use swan_model::Word;
use swan_runtime::WORKERS_MOST;

/// The largest fuel that words can ask for.
pub const FUEL_WORD_MOST: u64 = 1_000_000_000;

/// The largest NUMBER of `bulk`, from which a generated input begins.
pub const NUMBER_WORD_MOST: u64 = 1_000_000_000;

/// What the program is asked to do.
#[derive(Clone, Copy)]
pub enum Command<'a> {
    /// Write the help.
    Help,
    /// Write the version.
    Version,
    /// Check a job, and write it in its canonical form.
    Check {
        /// The job's file.
        job: &'a Word,
    },
    /// Run the serial elision of a job.
    Elide {
        /// The most steps that are taken.
        fuel: u64,
        /// The job's file.
        job: &'a Word,
        /// The files of its inputs, in order.
        inputs: &'a [Word],
    },
    /// Run a job.
    Run {
        /// How many workers run it.
        workers: u32,
        /// The most steps that are taken.
        fuel: u64,
        /// The job's file.
        job: &'a Word,
        /// The files of its inputs, in order.
        inputs: &'a [Word],
    },
    /// Write the index of a text.
    Index {
        /// How many workers make it.
        workers: u32,
        /// The text's file.
        input: &'a Word,
    },
    /// Convert the lines of a text to netstrings.
    Convert {
        /// How many workers convert them.
        workers: u32,
        /// The text's file.
        input: &'a Word,
    },
    /// Run a generated job over a generated input.
    Bulk {
        /// The input begins with this number mod 1,000.
        number: u64,
        /// How many lines the input has.
        size: u64,
        /// How many workers run it.
        workers: u32,
    },
}

/// The words are no command.
#[derive(Clone, Copy, Debug, PartialEq, Eq)]
pub struct Usage;

// Whether a word is a text.
fn is_word(word: &Word, text: &str) -> bool
    ensures { result ≡ bytes_eq word.now text.now }
{
    word.as_str().as_bytes() == text.as_bytes()
}

// The number from low to high that a word is.
fn number_within(low: u64, high: u64, word: &Word) -> Option<u64>
    ensures { result ≡ number_within low high word.now }
{
    let number = u64::try_from(read_number(word.as_str().as_bytes())?).ok()?;
    if low <= number && number <= high {
        Some(number)
    } else {
        None
    }
}

// Whether a word can name a file.
fn is_file(word: &Word) -> bool
    ensures { result ≡ is_file word.now }
{
    !word.as_str().is_empty()
}

// A command of no further words.
fn alone<'a>(command: Command<'a>, words: &[Word]) -> Result<Command<'a>, Usage>
    requires { IsWithinLimits (command_of command) }
    ensures { ReadsWords (alone (command_of command.entry) words.now) result }
{
    match words {
        [] => Ok(command),
        _ => Err(Usage),
    }
}

// JOB.
fn job_alone(words: &[Word]) -> Result<Command<'_>, Usage>
    ensures { ReadsWords (job_alone words.now) result }
{
    match words {
        [job] if is_file(job) => Ok(Command::Check { job }),
        _ => Err(Usage),
    }
}

// Whether all words can name files.
fn are_files(words: &[Word]) -> bool
    ensures { result ≡ list_all is_file words.now }
{
    words.iter().all(|word| is_file(word))
}

// A job and its inputs, after a fuel.
fn job_and_inputs(words: &[Word]) -> Option<(&Word, &[Word])>
    ensures { FilesOf result words.now }
{
    let (job, inputs) = words.split_first()?;
    if is_file(job) && are_files(inputs) {
        Some((job, inputs))
    } else {
        None
    }
}

// FUEL JOB INPUT*, as words give them.
#[derive(Clone, Copy)]
struct JobWords<'a> {
    fuel: u64,
    job: &'a Word,
    inputs: &'a [Word],
}

// FUEL JOB INPUT*.
fn fueled(words: &[Word]) -> Option<JobWords<'_>>
    ensures { JobOf result words.now }
{
    let Some((fuel, files)) = words.split_first() else {
        return None;
    };
    match (
        number_within(1, FUEL_WORD_MOST, fuel),
        job_and_inputs(files),
    ) {
        (Some(fuel), Some((job, inputs))) => Some(JobWords { fuel, job, inputs }),
        _ => None,
    }
}

// FUEL JOB INPUT*, for the elision where no workers are named, and else for a run by so many.
fn job_command(workers: Option<u32>, words: &[Word]) -> Result<Command<'_>, Usage>
    ensures { ReadsWords (fueled (elide_or_run workers) words.now) result }
{
    let Some(JobWords { fuel, job, inputs }) = fueled(words) else {
        return Err(Usage);
    };
    match workers {
        Some(workers) => Ok(Command::Run {
            workers,
            fuel,
            job,
            inputs,
        }),
        None => Ok(Command::Elide { fuel, job, inputs }),
    }
}

// WORKERS.
fn workers_of(word: &Word) -> Option<u32>
    ensures { result ≡ number_within 1 WORKERS_MOST word.now }
{
    match number_within(1, WORKERS_MOST as u64, word) {
        Some(workers) => Some(workers as u32),
        None => None,
    }
}

// WORKERS, and the words after it.
fn split_workers(words: &[Word]) -> Option<(u32, &[Word])>
    ensures { WorkersOf result words.now }
{
    let Some((workers, words)) = words.split_first() else {
        return None;
    };
    match workers_of(workers) {
        Some(workers) => Some((workers, words)),
        None => None,
    }
}

// WORKERS FUEL JOB INPUT*.
fn run_command(words: &[Word]) -> Result<Command<'_>, Usage>
    ensures { ReadsWords (manned words.now) result }
{
    match split_workers(words) {
        Some((workers, words)) => job_command(Some(workers), words),
        None => Err(Usage),
    }
}

// WORKERS INPUT.
fn over_input(words: &[Word]) -> Option<(u32, &Word)>
    ensures { InputOf result words.now }
{
    let Some((workers, words)) = split_workers(words) else {
        return None;
    };
    match words {
        [input] if is_file(input) => Some((workers, input)),
        _ => None,
    }
}

// WORKERS INPUT, for the index.
fn index_command(words: &[Word]) -> Result<Command<'_>, Usage>
    ensures { ReadsWords (over_input index words.now) result }
{
    match over_input(words) {
        Some((workers, input)) => Ok(Command::Index { workers, input }),
        None => Err(Usage),
    }
}

// WORKERS INPUT, for the conversion.
fn convert_command(words: &[Word]) -> Result<Command<'_>, Usage>
    ensures { ReadsWords (over_input convert words.now) result }
{
    match over_input(words) {
        Some((workers, input)) => Ok(Command::Convert { workers, input }),
        None => Err(Usage),
    }
}

// NUMBER SIZE WORKERS, as three words.
fn generated_by<'a>(
    number_word: &Word,
    size_word: &Word,
    workers_word: &Word,
) -> Result<Command<'a>, Usage>
    ensures { ReadsWords (three_numbers (number_word.now ∷ size_word.now ∷ workers_word.now ∷ [])) result }
{
    match (
        number_within(0, NUMBER_WORD_MOST, number_word),
        number_within(0, BULK_MOST, size_word),
        workers_of(workers_word),
    ) {
        (Some(number), Some(size), Some(workers)) => Ok(Command::Bulk {
            number,
            size,
            workers,
        }),
        _ => Err(Usage),
    }
}

// NUMBER SIZE WORKERS.
fn bulk_command(words: &[Word]) -> Result<Command<'_>, Usage>
    ensures { ReadsWords (three_numbers words.now) result }
{
    match words {
        [number, size, workers] => generated_by(number, size, workers),
        _ => Err(Usage),
    }
}

/// The command that words are. Usage comes exactly where they are none. FUEL is 1 to 1,000,000,000, WORKERS 1
/// to 256, NUMBER 0 to 1,000,000,000 and SIZE 0 to 300,000. It takes no memory, and goes over the words once.
pub fn read_words(words: &[Word]) -> Result<Command<'_>, Usage>
    ensures command { IfOk result (λ command'. command words.now ≡ Some (command_of command')) }
    ensures usage { OnErr result (command words.now ≡ None) }
    ensures within_limits { IfOk result (λ command'. IsWithinLimits (command_of command')) }
{
    let Some((word, words)) = words.split_first() else {
        return Err(Usage);
    };
    if is_word(word, "check") {
        job_alone(words)
    } else if is_word(word, "elide") {
        job_command(None, words)
    } else if is_word(word, "run") {
        run_command(words)
    } else if is_word(word, "index") {
        index_command(words)
    } else if is_word(word, "convert") {
        convert_command(words)
    } else if is_word(word, "bulk") {
        bulk_command(words)
    } else if is_word(word, "--help") {
        alone(Command::Help, words)
    } else if is_word(word, "--version") {
        alone(Command::Version, words)
    } else {
        Err(Usage)
    }
}
