// The tokens of a line.
ghost use Rattle.std.specs.Prelude.{◌≡◌, IfOk};
ghost use Rattle.job_reader.specs.Texts.{texts};
ghost use Rattle.job_reader.specs.Tokens.{is_between, next, tokens};

use std::alloc::Global;
use swan_model::NoMemory;

/// Where the scan of a line stands.
#[derive(Clone, Copy, Debug, PartialEq, Eq)]
pub enum Scan {
    /// Between two tokens.
    Between,
    /// In a token.
    Token,
    /// Inside the quotes of a literal.
    Quoted,
    /// Inside the quotes of a literal and after a backslash.
    Escaped,
}

impl Scan {
    /// Where the scan stands after a byte.
    fn next(self, byte: u8) -> Scan
        ensures { result ≡ next self byte }
    {
        match self {
            Scan::Between => {
                if byte == b' ' {
                    Scan::Between
                } else if byte == b'"' {
                    Scan::Quoted
                } else {
                    Scan::Token
                }
            }
            Scan::Token => {
                if byte == b' ' {
                    Scan::Between
                } else {
                    Scan::Token
                }
            }
            Scan::Quoted => {
                if byte == b'"' {
                    Scan::Token
                } else if byte == b'\\' {
                    Scan::Escaped
                } else {
                    Scan::Quoted
                }
            }
            Scan::Escaped => Scan::Quoted,
        }
    }

    /// Whether the scan stands between two tokens.
    fn is_between(self) -> bool
        ensures { result ≡ is_between self }
    {
        matches!(self, Scan::Between)
    }
}

/// The tokens of a line, as parts of it. `O(length)`, and an allocation now and then.
pub fn tokens(alloc: Global, line: &[u8]) -> Result<Vec<&[u8]>, NoMemory>
    ensures { IfOk result (λ found. texts found.items ≡ tokens line.now) }
{
    let mut found = Vec::new(alloc);
    let mut scan = Scan::Between;
    let mut start = 0;
    for (i, byte) in line.iter().enumerate() {
        let next = scan.next(*byte);
        if scan.is_between() {
            start = i;
        } else if next.is_between() {
            found.push(&line[start..i])?;
        }
        scan = next;
    }
    if !scan.is_between() {
        found.push(&line[start..])?;
    }
    Ok(found)
}
