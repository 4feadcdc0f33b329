// The texts of the workload.
ghost use Rattle.std.specs.Prelude.{◌≡◌, ◌≤◌, IfOk};
ghost use Rattle.bulk_workload.specs.Bulk.{bulk_fuel, bulk_input, bulk_job};

use std::alloc::Global;
use swan_model::NoMemory;

/// The largest number of lines of the input.
pub const BULK_MOST: u64 = 300_000;

// The job up to the fuel of its last task.
const BEFORE_FUEL: &str = "\
swan 1\n\
input lines\n\
output summary int\n\
object total int\n\
object count int\n\
task parse\n\
\x20 param block bytes\n\
\x20 push nums int\n\
\x20 var from int\n\
\x20 var to int\n\
\x20 var piece bytes\n\
\x20 var n int\n\
\x20 var size int\n\
\x20 var more int\n\
\x20 do\n\
\x20 size = len block\n\
\x20 more = lt from size\n\
\x20 while more\n\
\x20   to = find block 32 from\n\
\x20   piece = slice block from to\n\
\x20   n = num piece\n\
\x20   push nums n\n\
\x20   from = add to 1\n\
\x20   more = lt from size\n\
\x20 end\n\
end\n\
task fold\n\
\x20 pop nums int\n\
\x20 out total int\n\
\x20 out count int\n\
\x20 push summary int\n\
\x20 var n int\n\
\x20 var sum int\n\
\x20 var items int\n\
\x20 var none int\n\
\x20 var more int\n\
\x20 do\n\
\x20 empty none nums\n\
\x20 more = not none\n\
\x20 while more\n\
\x20   pop n nums\n\
\x20   sum = add sum n\n\
\x20   items = add items 1\n\
\x20   empty none nums\n\
\x20   more = not none\n\
\x20 end\n\
\x20 write total sum\n\
\x20 write count items\n\
\x20 push summary sum\n\
\x20 push summary items\n\
end\n\
task main\n\
\x20 queue nums int\n\
\x20 var block bytes\n\
\x20 var line bytes\n\
\x20 var held int\n\
\x20 var none int\n\
\x20 var more int\n\
\x20 var full int\n\
\x20 do\n\
\x20 empty none lines\n\
\x20 more = not none\n\
\x20 while more\n\
\x20   pop line lines\n\
\x20   block = cat block line\n\
\x20   block = cat block \" \"\n\
\x20   held = add held 1\n\
\x20   full = eq held 100\n\
\x20   if full\n\
\x20     spawn 1000 parse block nums\n\
\x20     block = set \"\"\n\
\x20     held = set 0\n\
\x20   end\n\
\x20   empty none lines\n\
\x20   more = not none\n\
\x20 end\n\
\x20 spawn 1000 parse block nums\n\
\x20 spawn ";

// The job from there on.
const AFTER_FUEL: &str = " fold nums total count summary\nend\n";

/// The job for an input of so many lines, at most `BULK_MOST`: it sums the numbers of the input, which it reads in blocks of 100 lines.
/// `O(1)`.
pub fn bulk_job(alloc: Global, size: u64) -> Result<Vec<u8>, NoMemory>
    requires { size ≤ BULK_MOST }
    ensures { IfOk result (λ text. text.items ≡ bulk_job size) }
{
    let fuel = 7 * size + 8;
    let text = format!(in alloc; "{BEFORE_FUEL}{fuel}{AFTER_FUEL}")?;
    Ok(text.into_bytes())
}

/// The fuel that the job runs with. It takes no memory.
pub fn bulk_fuel(size: u64) -> u64
    requires { size ≤ BULK_MOST }
    ensures { result ≡ bulk_fuel size }
{
    30 * size + 2_000
}

/// The input of so many lines, at most `BULK_MOST`: a number below 1000 on each, from `number` mod 1000 on. `O(size)`, an
/// allocation for each line, and those by which the text grows.
pub fn bulk_input(alloc: Global, number: u64, size: u64) -> Result<Vec<u8>, NoMemory>
    requires { size ≤ BULK_MOST }
    ensures { IfOk result (λ text. text.items ≡ bulk_input number size) }
{
    let mut text = String::new(alloc);
    let mut number = number % 1_000;
    for _line in 0..size {
        text.push_str(format!(in alloc; "{number}\n")?.as_str())?;
        number = (21 * number + 7) % 1_000;
    }
    Ok(text.into_bytes())
}
