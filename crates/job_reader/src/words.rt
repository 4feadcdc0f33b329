// The words of the language.
ghost use Rattle.std.specs.Prelude.{◌≡◌, bytes_eq};
ghost use Rattle.job_reader.specs.Words.{do_named, do_text, edition_named, edition_text, kind_named, kind_text, task_named, task_text, top_named, top_text};

use crate::Edition;
use swan_model::Kind;

/// Whether a token is this text. `O(length)`.
pub fn is_text(token: &[u8], text: &str) -> bool
    ensures { result ≡ bytes_eq token.now text.now }
{
    token == text.as_bytes()
}

/// The number of an edition, as the first line has it.
pub fn edition_text(edition: Edition) -> &'static str
    ensures { result.now ≡ edition_text edition }
{
    match edition {
        Edition::One => "1",
        Edition::Two => "2",
    }
}

/// The edition with this number, if it is one.
pub fn edition_named(token: &[u8]) -> Option<Edition>
    ensures { result ≡ edition_named token.now }
{
    EDITIONS
        .iter()
        .copied()
        .find(|edition| is_text(token, edition_text(*edition)))
}

/// All editions.
pub const EDITIONS: [Edition; 2] = [Edition::One, Edition::Two];

/// The word of a kind.
pub fn kind_text(kind: Kind) -> &'static str
    ensures { result.now ≡ kind_text kind }
{
    match kind {
        Kind::Int => "int",
        Kind::Bytes => "bytes",
    }
}

/// The kind with this word, if it is one.
pub fn kind_named(token: &[u8]) -> Option<Kind>
    ensures { result ≡ kind_named token.now }
{
    KINDS
        .iter()
        .copied()
        .find(|kind| is_text(token, kind_text(*kind)))
}

/// All kinds.
pub const KINDS: [Kind; 2] = [Kind::Int, Kind::Bytes];

/// The first word of a line at the top level.
#[derive(Clone, Copy, Debug, PartialEq, Eq)]
pub enum TopWord {
    Input,
    Output,
    Object,
    Task,
}

impl TopWord {
    /// How the word is written.
    pub fn text(self) -> &'static str
        ensures { result.now ≡ top_text self }
    {
        match self {
            TopWord::Input => "input",
            TopWord::Output => "output",
            TopWord::Object => "object",
            TopWord::Task => "task",
        }
    }

    /// The word that is written so, if it is one.
    pub fn named(token: &[u8]) -> Option<TopWord>
        ensures { result ≡ top_named token.now }
    {
        TOP_WORDS
            .iter()
            .copied()
            .find(|word| is_text(token, word.text()))
    }
}

/// All words of the top level.
pub const TOP_WORDS: [TopWord; 4] = [
    TopWord::Input,
    TopWord::Output,
    TopWord::Object,
    TopWord::Task,
];

/// The first word of a line of a task before its statements.
#[derive(Clone, Copy, Debug, PartialEq, Eq)]
pub enum TaskWord {
    Param,
    In,
    Out,
    InOut,
    Push,
    Pop,
    PushPop,
    Var,
    Queue,
    Object,
    Do,
}

impl TaskWord {
    /// How the word is written.
    pub fn text(self) -> &'static str
        ensures { result.now ≡ task_text self }
    {
        match self {
            TaskWord::Param => "param",
            TaskWord::In => "in",
            TaskWord::Out => "out",
            TaskWord::InOut => "inout",
            TaskWord::Push => "push",
            TaskWord::Pop => "pop",
            TaskWord::PushPop => "pushpop",
            TaskWord::Var => "var",
            TaskWord::Queue => "queue",
            TaskWord::Object => "object",
            TaskWord::Do => "do",
        }
    }

    /// The word that is written so, if it is one.
    pub fn named(token: &[u8]) -> Option<TaskWord>
        ensures { result ≡ task_named token.now }
    {
        TASK_WORDS
            .iter()
            .copied()
            .find(|word| is_text(token, word.text()))
    }
}

/// All words of a task before its statements.
pub const TASK_WORDS: [TaskWord; 11] = [
    TaskWord::Param,
    TaskWord::In,
    TaskWord::Out,
    TaskWord::InOut,
    TaskWord::Push,
    TaskWord::Pop,
    TaskWord::PushPop,
    TaskWord::Var,
    TaskWord::Queue,
    TaskWord::Object,
    TaskWord::Do,
];

/// The first word of a statement that is no assignment.
#[derive(Clone, Copy, Debug, PartialEq, Eq)]
pub enum DoWord {
    Read,
    Write,
    Push,
    Pop,
    Empty,
    Spawn,
    Sync,
    Caught,
    Fuel,
    Fail,
    If,
    Else,
    While,
    End,
}

impl DoWord {
    /// How the word is written.
    pub fn text(self) -> &'static str
        ensures { result.now ≡ do_text self }
    {
        match self {
            DoWord::Read => "read",
            DoWord::Write => "write",
            DoWord::Push => "push",
            DoWord::Pop => "pop",
            DoWord::Empty => "empty",
            DoWord::Spawn => "spawn",
            DoWord::Sync => "sync",
            DoWord::Caught => "caught",
            DoWord::Fuel => "fuel",
            DoWord::Fail => "fail",
            DoWord::If => "if",
            DoWord::Else => "else",
            DoWord::While => "while",
            DoWord::End => "end",
        }
    }

    /// The word that is written so, if it is one.
    pub fn named(token: &[u8]) -> Option<DoWord>
        ensures { result ≡ do_named token.now }
    {
        DO_WORDS
            .iter()
            .copied()
            .find(|word| is_text(token, word.text()))
    }
}

/// All words of statements.
pub const DO_WORDS: [DoWord; 14] = [
    DoWord::Read,
    DoWord::Write,
    DoWord::Push,
    DoWord::Pop,
    DoWord::Empty,
    DoWord::Spawn,
    DoWord::Sync,
    DoWord::Caught,
    DoWord::Fuel,
    DoWord::Fail,
    DoWord::If,
    DoWord::Else,
    DoWord::While,
    DoWord::End,
];
