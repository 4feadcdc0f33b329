// Reading the inputs of a job.
ghost use Rattle.std.specs.Prelude.{◌≡◌, None, IfOk, OnOk, IfErr};
ghost use Rattle.swan_top.specs.Decision.{unread};
ghost use Rattle.swan_top.specs.Headline.{WereRead, files_over};
ghost use Rattle.swan_top.specs.Settled.{StopsOver, InputUnread};

use crate::read::read_file;
use crate::verdict::WhyStopped;
use std::alloc::Global;
use swan_model::{Blob, Word};
use swan_outside::Files;

// Reads all inputs in order, or settles that one of them can't be read.
pub(crate) fn read_inputs<F: Files>(
    alloc: Global,
    files: &mut F,
    names: &[Word],
) -> Result<Vec<Blob>, WhyStopped>
    ensures read { IfOk result (λ inputs. WereRead (F.content files.old) names.now inputs.items) }
    ensures all { IfOk result (λ inputs. unread names.now inputs.items ≡ None) }
    ensures refused { let seen = files_over F.Files files.old files.new in
        IfErr result (λ stop. StopsOver seen (InputUnread seen names.now) stop) }
    ensures no_fault { OnOk result (F.faults files.new ≡ F.faults files.old) }
    ensures no_long_read { OnOk result (F.long_reads files.new ≡ F.long_reads files.old) }
{
    let mut inputs = Vec::new(alloc);
    for name in names {
        let text = read_file(alloc, files, name)?;
        inputs.push(Blob::new(text))?;
    }
    Ok(inputs)
}
