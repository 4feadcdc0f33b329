// What a pipeline of a text begins with.
ghost use Rattle.std.specs.Prelude.{◌≡◌, ◌≤◌, ◌⊎◌, length, map, IfOk, IfErr, Some, None};
ghost use Rattle.swan_model.specs.declared.lines.LinesAnswer.TheVariants as answer;
ghost use Rattle.swan_model.specs.declared.value.Value.TheVariants as value;
ghost use Rattle.swan_model.specs.Lines.{lines, refusal_of};
ghost use Rattle.line_blocks.specs.TextRoots.{line_roots, text_names};

use std::alloc::Global;
use swan_model::{
    FIRST_ITEMS_MOST, LinesAnswer, Mode, Names, NoMemory, QueueName, QueueNames, RootQueue, Roots,
    Shown, Values, Word, Words, lines_of,
};

/// The largest number of bytes of a text that a pipeline takes.
pub const TEXT_MOST: usize = 67_108_864;

/// The root's place of the lines, which it pops.
pub const INPUT: u32 = 0;

/// The root's place of the output, to which it may push.
pub const OUTPUT: u32 = 1;

/// The lines of a text, which is refused as `lines_of` refuses it. They are few enough for a queue of a plan.
/// `O(length)`.
pub fn text_lines(alloc: Global, text: &[u8]) -> Result<Values, LinesAnswer>
    ensures lines { IfOk result (λ items. items ≡ map value.Bytes (lines text.now)) }
    ensures few { IfOk result (λ items. length items ≤ FIRST_ITEMS_MOST) }
    ensures accepted { IfOk result (λ _. refusal_of text.now ≡ None) }
    ensures refused { IfErr result (λ why. (why ≡ answer.NoMemory) ⊎ (refusal_of text.now ≡ Some why)) }
{
    match lines_of(alloc, text) {
        Ok(items) => Ok(items),
        Err(why) => Err(why),
    }
}

/// The two queues that the root of a pipeline begins with: these lines to pop, and an empty one to push to. An
/// Err is want of memory. `O(1)`.
pub fn line_roots(alloc: Global, lines: Values) -> Result<Roots, LinesAnswer>
    requires { length lines ≤ FIRST_ITEMS_MOST }
    ensures roots { IfOk result (λ roots. roots ≡ line_roots lines) }
    ensures refused { IfErr result (λ why. why ≡ answer.NoMemory) }
{
    let input = RootQueue {
        mode: Mode::Pop,
        items: lines,
    };
    let output = RootQueue {
        mode: Mode::Push,
        items: Values::new(alloc),
    };
    let mut roots = Roots::new(alloc);
    if roots.push_queue(input).is_err() || roots.push_queue(output).is_err() {
        return Err(LinesAnswer::NoMemory);
    }
    Ok(roots)
}

/// The name of a queue, and what is printed of it.
fn named(alloc: Global, name: &str, shown: Shown) -> Result<QueueName, NoMemory>
    ensures { IfOk result (λ queue. queue ≡ record { name = name.now; shown = shown }) }
{
    Ok(QueueName {
        name: Word::of(alloc, name)?,
        shown,
    })
}

/// The names with which the outcome of such a pipeline is printed: how many lines are left in `input`, and the
/// items of `output`. `O(1)`.
pub fn text_names(alloc: Global) -> Result<Names, NoMemory>
    ensures { IfOk result (λ names. names ≡ text_names) }
{
    let input = named(alloc, "input", Shown::Left)?;
    let output = named(alloc, "output", Shown::Out)?;
    let mut queues = QueueNames::new(alloc);
    if queues.push(input).is_err() || queues.push(output).is_err() {
        return Err(NoMemory);
    }
    Ok(Names {
        queues,
        objects: Words::new(alloc),
    })
}
