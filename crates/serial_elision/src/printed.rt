// The two texts that are printed of an outcome.
ghost use Rattle.std.specs.Prelude.{◌≡◌, length, IfOk};
ghost use Rattle.swan_model.specs.Texts.{out_bytes, report_bytes};

use crate::output::push_queues;
use crate::report::{push_faults, push_left_all, push_objects};
use crate::text::Text;
use std::alloc::Global;
use swan_model::{Blob, Names, NoMemory, Outcome};

/// The texts of an outcome.
#[derive(Drop)]
pub struct Printed {
    /// The items that are left in the queues that are shown so.
    pub out: Blob,
    /// The objects, the numbers of items that are left in the other queues, and the faults.
    pub report: Blob,
}

/// The texts of an outcome, with these names. `O(size of the texts)`.
pub fn print(alloc: Global, names: &Names, outcome: &Outcome) -> Result<Printed, NoMemory>
    requires queues { length names.now.queues ≡ length outcome.now.queues }
    requires objects { length names.now.objects ≡ length outcome.now.objects }
    ensures out { IfOk result (λ printed. printed.out ≡ out_bytes names.now outcome.now) }
    ensures report { IfOk result (λ printed. printed.report ≡ report_bytes names.now outcome.now) }
{
    Ok(Printed {
        out: out_bytes(alloc, names, outcome)?.into_blob(),
        report: report_bytes(alloc, names, outcome)?.into_blob(),
    })
}

/// The output.
fn out_bytes(alloc: Global, names: &Names, outcome: &Outcome) -> Result<Text, NoMemory>
    requires { length names.now.queues ≡ length outcome.now.queues }
    ensures { IfOk result (λ out. out ≡ out_bytes names.now outcome.now) }
{
    let mut out = Text::new(alloc);
    push_queues(
        alloc,
        &mut out,
        names.queues.as_slice(),
        outcome.queues.as_slice(),
    )?;
    Ok(out)
}

/// The report.
fn report_bytes(alloc: Global, names: &Names, outcome: &Outcome) -> Result<Text, NoMemory>
    requires queues { length names.now.queues ≡ length outcome.now.queues }
    requires objects { length names.now.objects ≡ length outcome.now.objects }
    ensures { IfOk result (λ report. report ≡ report_bytes names.now outcome.now) }
{
    let mut report = Text::new(alloc);
    push_objects(
        alloc,
        &mut report,
        names.objects.as_slice(),
        outcome.objects.as_slice(),
    )?;
    push_left_all(
        alloc,
        &mut report,
        names.queues.as_slice(),
        outcome.queues.as_slice(),
    )?;
    let count = outcome.faults.len();
    report.push_str(format!(in alloc; "faults {count}\n")?.as_str())?;
    push_faults(alloc, &mut report, outcome.faults.as_slice())?;
    Ok(report)
}
