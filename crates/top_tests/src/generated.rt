// Runs of the generated job.
use crate::helpers::{
    Ended, Machine, Over, assert_ended, called, file_of, hold, hold_row, number_before,
};
use bulk_workload::{BULK_MOST, bulk_input, bulk_job};
use std::alloc::Global;
use std::test::Fail;
use swan_model::NoMemory;
use swan_outside::FileBlob;

/// Whole command lines; then the output, the report and the code.
const CALLS: &str = "\
bulk 7 3 1|402~3~|object total int 402~object count int 3~left lines 0~faults 0~|0
bulk 7 0 1|0~0~|object total int 0~object count int 0~left lines 0~faults 0~|0
bulk 1007 3 1|402~3~|object total int 402~object count int 3~left lines 0~faults 0~|0
bulk 0 1000 1|499500~1000~|object total int 499500~object count int 1000~left lines 0~faults 0~|0
bulk 1000000000 1 1|0~1~|object total int 0~object count int 1~left lines 0~faults 0~|0
bulk 7 200000 1|99900000~200000~|object total int 99900000~object count int 200000~left lines 0~faults 0~|0
bulk 7 300000 1|149850000~300000~|object total int 149850000~object count int 300000~left lines 0~faults 0~|0
bulk 7 300001 1||usage~|2
bulk 1000000001 3 1||usage~|2
bulk 7 3 2|402~3~|object total int 402~object count int 3~left lines 0~faults 0~|0
bulk 7 3 64|402~3~|object total int 402~object count int 3~left lines 0~faults 0~|0
bulk 7 3 256|402~3~|object total int 402~object count int 3~left lines 0~faults 0~|0
bulk 7 0 4|0~0~|object total int 0~object count int 0~left lines 0~faults 0~|0
bulk 7 200000 8|99900000~200000~|object total int 99900000~object count int 200000~left lines 0~faults 0~|0
bulk 7 3 0||usage~|2
bulk 7 3 257||usage~|2
bulk 7 3 01||usage~|2
bulk 7 3 +1||usage~|2
bulk 7 03 1||usage~|2
bulk 07 3 1||usage~|2
bulk -7 3 1||usage~|2
bulk 7 +3 1||usage~|2
bulk 7 3 -||usage~|2
bulk 7 3||usage~|2
bulk 7||usage~|2
bulk||usage~|2
bulk 7 3 1 1||usage~|2
Bulk 7 3 1||usage~|2";

#[test]
fn a_generated_run_writes_its_sum_and_its_count(rt: HostRuntime) -> Result<(), Fail> {
    hold(&rt, rt.alloc(), "", &[], "", CALLS)
}

// Adds the files `job` and `input` of the generated job for so many lines.
fn add_generated(alloc: Global, files: &mut Vec<FileBlob>, size: u64) -> Result<(), NoMemory> {
    let size = size.min(BULK_MOST);
    files.push(file_of(alloc, "job", bulk_job(alloc, size)?)?)?;
    files.push(file_of(alloc, "input", bulk_input(alloc, 7, size)?)?)?;
    Ok(())
}

// The files `job` and `input`: the generated job for so many lines, and its input from 7 on.
fn generated_files(alloc: Global, size: u64) -> Result<Vec<FileBlob>, NoMemory> {
    let mut files = Vec::new(alloc);
    match add_generated(alloc, &mut files, size) {
        Ok(()) => Ok(files),
        Err(none) => {
            drop(files);
            Err(none)
        }
    }
}

/// The elision of the generated job with so many units: the number of lines, and then a row. So many units are spent or
/// given away, and with one less the last line of the job has none.
const UNITS: &str = "\
0 1015 job input|0~0~|object total int 0~object count int 0~left lines 0~faults 0~|0
0 1014 job input|0~0~|object total int 0~object count int 0~left lines 0~faults 1~fault / 79 Fuel~|1
200000 5409015 job input|99900000~200000~|object total int 99900000~object count int 200000~left lines 0~faults 0~|0
200000 5409014 job input|99900000~200000~|object total int 99900000~object count int 200000~left lines 0~faults 1~fault / 79 Fuel~|1";

// Asserts a row of the units.
fn hold_units(rt: &impl Machine, alloc: Global, row: &str) -> Result<(), Fail> {
    let (size, row) = number_before(row)?;
    let files = generated_files(alloc, u64::from(size))?;
    hold_row(rt, alloc, Over::files(files), "elide", row)
}

#[test]
fn a_generated_run_takes_so_many_units(rt: HostRuntime) -> Result<(), Fail> {
    for row in UNITS.lines() {
        hold_units(&rt, rt.alloc(), row)?;
    }
    Ok(())
}

// The text of the generated job for three lines.
fn job_of_three(alloc: Global) -> Result<String, NoMemory> {
    let job = bulk_job(alloc, 3)?;
    Ok(String::from_utf8_lossy(alloc, job.as_slice())?)
}

// A check of that job.
fn checked(rt: &impl Machine, alloc: Global) -> Result<Ended, NoMemory> {
    let files = generated_files(alloc, 3)?;
    called(rt, alloc, "check job", Over::files(files))
}

#[test]
fn the_generated_job_is_in_the_canonical_form(rt: HostRuntime) -> Result<(), Fail> {
    let job = job_of_three(rt.alloc())?;
    let got = checked(&rt, rt.alloc())?;
    assert_ended(&rt, &got, "check job", job.as_str(), "checked\n", "0");
    Ok(())
}
