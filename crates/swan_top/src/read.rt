// Reading files.
ghost use Rattle.std.specs.Prelude.{◌≡◌, ◌+◌, ◌≤◌, ℕ, List, [], length, vec_capacity, IfOk, OnOk, IfErr};
ghost use Rattle.swan_top.specs.Decision.{refuses};
ghost use Rattle.swan_top.specs.Headline.{WasRead, ReadRefused, files_over};
ghost use Rattle.swan_top.specs.Refusals.{file_line};
ghost use Rattle.swan_top.specs.Settled.{StopsOver, StopsWith};
ghost use Rattle.swan_top.specs.declared.status.Status.TheVariants as status;

use crate::Status;
use crate::verdict::WhyStopped;
use std::alloc::{AllocError, Global};
use swan_model::{Blob, Word};
use swan_outside::{Files, ReadAnswer};

// Room for the line of a refusal that names this file.
fn room_for_line(alloc: Global, file: &Word) -> Result<Vec<u8>, AllocError>
    ensures empty { IfOk result (λ line. line.items ≡ []) }
    ensures room { IfOk result (λ line. 13 + length file.now ≤ vec_capacity line) }
{
    Vec::with_capacity(alloc, 13 + file.as_str().len())
}

// A line that names a file. It takes no memory, since there is room for it.
fn file_line(mut line: Vec<u8>, what: &str, file: &Word) -> Blob
    requires empty { line.items ≡ [] }
    requires short { length what.now ≤ 12 }
    requires room { 13 + length file.now ≤ vec_capacity line }
    ensures { result ≡ file_line what.now file.now }
{
    line.extend_from_slice(what.as_bytes()).unwrap();
    line.extend_from_slice(file.as_str().as_bytes()).unwrap();
    line.extend_from_slice(b"\n").unwrap();
    Blob::new(line)
}

// Settles that a file can't be read. It takes no memory.
fn refuse_read(line: Vec<u8>, what: &str, file: &Word) -> WhyStopped
    requires empty { line.items ≡ [] }
    requires short { length what.now ≤ 12 }
    requires room { 13 + length file.now ≤ vec_capacity line }
    ensures { StopsWith ⊥ (λ verdict. verdict ≡ refuses (file_line what.now file.now) status.ReadFailed) result }
{
    WhyStopped::refused(file_line(line, what, file), Status::ReadFailed)
}

// Reads a whole file, or settles that it can't be read. The room for a refusal is made before the read, so a read
// that was refused is never want of memory.
pub(crate) fn read_file<F: Files>(
    alloc: Global,
    files: &mut F,
    file: &Word,
) -> Result<Vec<u8>, WhyStopped>
    ensures read { IfOk result (λ text. WasRead (F.content files.old file.now) text.items) }
    ensures refused { let seen = files_over F.Files files.old files.new in
        IfErr result (λ stop. StopsOver seen (ReadRefused seen file.now) stop) }
    ensures no_fault { OnOk result (F.faults files.new ≡ F.faults files.old) }
    ensures no_long_read { OnOk result (F.long_reads files.new ≡ F.long_reads files.old) }
    ensures contents_kept { (other : List ℕ) → F.content files.new other ≡ F.content files.old other }
{
    let line = room_for_line(alloc, file)?;
    let mut text = Vec::new(alloc);
    match files.read(file, &mut text) {
        Ok(()) => Ok(text),
        Err(ReadAnswer::Failed) => Err(refuse_read(line, "read failed ", file)),
        Err(ReadAnswer::TooLong) => Err(refuse_read(line, "too long ", file)),
        Err(ReadAnswer::NoMemory) => Err(WhyStopped::NoMemory),
    }
}
