// The calls for C, exported (include/shambrukit.h). Each hands on what a function of `shambrukit::c` answers for a byte string or for
// an unpacked form, and states its promise again: a crate is a library or a static library, so the exports stand in a crate of
// their own.
#![tactic(auto)]

ghost use Rattle.std.specs.Prelude.{length};
ghost use Rattle.sheet.specs.Forms.{packed, unpacked};
ghost use Rattle.shambrukit.specs.Calls.{demand_told, fewest_told, listed, numbers_of, repetition_numbers, skip_numbers, task_list, whole};
ghost use Rattle.shambrukit.specs.C.{verdict_numbers, result_numbers, SheetRow, ListRow, SheetSays, ListSays, SheetLends, ListLends};

use shambrukit::c;
use shambrukit::c::{ResultNumbers, VerdictNumbers};

#[unsafe(no_mangle)]
pub extern "C" fn shambrukit_judge(sheet: &[u8]) -> VerdictNumbers
    ensures { SheetRow sheet.now (verdict_numbers result) }
{
    c::judge(sheet)
}

#[unsafe(no_mangle)]
pub extern "C" fn shambrukit_judge_list(numbers: &[u32]) -> VerdictNumbers
    ensures { ListRow numbers.now (verdict_numbers result) }
{
    c::judge(numbers)
}

#[unsafe(no_mangle)]
pub extern "C" fn shambrukit_demand(sheet: &[u8], length: u64) -> ResultNumbers
    ensures { SheetSays sheet.now (λ o. demand_told o length) (result_numbers result) }
{
    c::demand(sheet, length)
}

#[unsafe(no_mangle)]
pub extern "C" fn shambrukit_demand_list(numbers: &[u32], length: u64) -> ResultNumbers
    ensures { ListSays numbers.now (λ o. demand_told o length) (result_numbers result) }
{
    c::demand(numbers, length)
}

#[unsafe(no_mangle)]
pub extern "C" fn shambrukit_fewest(sheet: &[u8], graph: u64, actor: u64, k: u64) -> ResultNumbers
    ensures { SheetSays sheet.now (λ o. fewest_told o graph actor k) (result_numbers result) }
{
    c::fewest(sheet, graph, actor, k)
}

#[unsafe(no_mangle)]
pub extern "C" fn shambrukit_fewest_list(
    numbers: &[u32],
    graph: u64,
    actor: u64,
    k: u64,
) -> ResultNumbers
    ensures { ListSays numbers.now (λ o. fewest_told o graph actor k) (result_numbers result) }
{
    c::fewest(numbers, graph, actor, k)
}

#[unsafe(no_mangle)]
pub extern "C" fn shambrukit_repetition(sheet: &[u8], graph: u64, out: &mut [u64]) -> ResultNumbers
    ensures { SheetLends sheet.now (λ o. listed repetition_numbers o graph (length out.old)) (λ o. numbers_of repetition_numbers o graph) (result_numbers result) out.old out.new }
{
    c::repetition(sheet, graph, out)
}

#[unsafe(no_mangle)]
pub extern "C" fn shambrukit_repetition_list(
    numbers: &[u32],
    graph: u64,
    out: &mut [u64],
) -> ResultNumbers
    ensures { ListLends numbers.now (λ o. listed repetition_numbers o graph (length out.old)) (λ o. numbers_of repetition_numbers o graph) (result_numbers result) out.old out.new }
{
    c::repetition(numbers, graph, out)
}

#[unsafe(no_mangle)]
pub extern "C" fn shambrukit_skips(sheet: &[u8], graph: u64, out: &mut [u64]) -> ResultNumbers
    ensures { SheetLends sheet.now (λ o. listed skip_numbers o graph (length out.old)) (λ o. numbers_of skip_numbers o graph) (result_numbers result) out.old out.new }
{
    c::skips(sheet, graph, out)
}

#[unsafe(no_mangle)]
pub extern "C" fn shambrukit_skips_list(
    numbers: &[u32],
    graph: u64,
    out: &mut [u64],
) -> ResultNumbers
    ensures { ListLends numbers.now (λ o. listed skip_numbers o graph (length out.old)) (λ o. numbers_of skip_numbers o graph) (result_numbers result) out.old out.new }
{
    c::skips(numbers, graph, out)
}

#[unsafe(no_mangle)]
pub extern "C" fn shambrukit_tasks(sheet: &[u8], graph: u64, out: &mut [u64]) -> ResultNumbers
    ensures { SheetLends sheet.now (λ o. listed task_list o graph (length out.old)) (λ o. numbers_of task_list o graph) (result_numbers result) out.old out.new }
{
    c::tasks(sheet, graph, out)
}

#[unsafe(no_mangle)]
pub extern "C" fn shambrukit_tasks_list(
    numbers: &[u32],
    graph: u64,
    out: &mut [u64],
) -> ResultNumbers
    ensures { ListLends numbers.now (λ o. listed task_list o graph (length out.old)) (λ o. numbers_of task_list o graph) (result_numbers result) out.old out.new }
{
    c::tasks(numbers, graph, out)
}

#[unsafe(no_mangle)]
pub extern "C" fn shambrukit_unpack(sheet: &[u8], out: &mut [u32]) -> ResultNumbers
    ensures { SheetLends sheet.now (λ o. whole o (length (unpacked sheet.now)) (length out.old)) (λ _. unpacked sheet.now) (result_numbers result) out.old out.new }
{
    c::unpack(sheet, out)
}

#[unsafe(no_mangle)]
pub extern "C" fn shambrukit_pack(numbers: &[u32], out: &mut [u8]) -> ResultNumbers
    ensures { ListLends numbers.now (λ o. whole o (length (packed numbers.now)) (length out.old)) (λ _. packed numbers.now) (result_numbers result) out.old out.new }
{
    c::pack(numbers, out)
}
