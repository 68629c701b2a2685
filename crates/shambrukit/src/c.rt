// The calls for C: answers as plain numbers (include/shambrukit.h).
ghost use Rattle.std.specs.Prelude.{◌≡◌, [], ◌∷◌, Some, length};
ghost use Rattle.sheet.specs.Forms.{packed, unpacked};
ghost use Rattle.shambrukit.specs.Verdict.{row_of};
ghost use Rattle.shambrukit.specs.Calls.{demand_told, fewest_told, listed, numbers_of, repetition_numbers, skip_numbers, task_list, whole, reply_of};
ghost use Rattle.shambrukit.specs.C.{verdict_numbers, result_numbers, line_of, RowBy, SaysBy, LendsBy, SheetLends, ListLends};

use super::form::Sheet;
use super::{Load, Verdict, calls};
use sheet::Refusal;
use std::fmt;
use units::Count;

#[repr(C)]
#[derive(Clone, Copy)]
pub struct VerdictNumbers {
    pub answer: u64,
    pub place: u64,
    pub load: u64,
    pub frame: u64,
    pub length: u64,
}

#[repr(C)]
#[derive(Clone, Copy)]
pub struct ResultNumbers {
    pub answer: u64,
    pub place: u64,
    pub value: u64,
}

// The line of a verdict, as the programs print it.
impl fmt::Display for VerdictNumbers {
    ghost output = { λ v. Some (line_of v) };

    fn fmt<W: fmt::Write>(&self, f: &mut fmt::Formatter<W>) -> fmt::Result {
        write!(
            f,
            "{} {} {} {} {}",
            self.answer, self.place, self.load, self.frame, self.length
        )
    }
}

impl From<Verdict> for VerdictNumbers {
    ghost from_gives = { λ v r. verdict_numbers r ≡ row_of v };

    fn from(v: Verdict) -> VerdictNumbers {
        match v {
            Verdict::Accepted(w) => fitting(0, w, 0),
            Verdict::Overload(w) => fitting(20, w, 0),
            Verdict::Late(w, t) => fitting(21, w, t.count()),
            Verdict::Refused(r) => VerdictNumbers {
                answer: r.number(),
                place: r.place(),
                load: 0,
                frame: 0,
                length: 0,
            },
        }
    }
}

fn fitting(answer: u64, w: Load, length: u64) -> VerdictNumbers
    ensures { verdict_numbers result ≡ (answer ∷ 0 ∷ w.load.n ∷ w.frame.n ∷ length ∷ []) }
{
    VerdictNumbers {
        answer,
        place: 0,
        load: w.load.count(),
        frame: w.frame.count(),
        length,
    }
}

impl From<Result<u64, Refusal>> for ResultNumbers {
    ghost from_gives = { λ t r. result_numbers r ≡ reply_of t };

    fn from(t: Result<u64, Refusal>) -> ResultNumbers {
        match t {
            Ok(value) => ResultNumbers {
                answer: 0,
                place: 0,
                value,
            },
            Err(r) => ResultNumbers {
                answer: r.number(),
                place: r.place(),
                value: 0,
            },
        }
    }
}

impl From<Result<usize, Refusal>> for ResultNumbers {
    ghost from_gives = { λ w r. result_numbers r ≡ reply_of w };

    fn from(w: Result<usize, Refusal>) -> ResultNumbers {
        ResultNumbers::from(w.map(|n| n as u64))
    }
}

pub fn judge<F: Sheet>(form: F) -> VerdictNumbers
    ensures { RowBy (F.lines form) (verdict_numbers result) }
{
    VerdictNumbers::from(calls::judge(form))
}

pub fn demand<F: Sheet>(form: F, length: u64) -> ResultNumbers
    ensures { SaysBy (F.lines form) (λ o. demand_told o length) (result_numbers result) }
{
    ResultNumbers::from(calls::demand(form, length))
}

pub fn fewest<F: Sheet>(form: F, graph: u64, actor: u64, k: u64) -> ResultNumbers
    ensures { SaysBy (F.lines form) (λ o. fewest_told o graph actor k) (result_numbers result) }
{
    ResultNumbers::from(calls::fewest(form, graph, actor, k))
}

pub fn repetition<F: Sheet>(form: F, graph: u64, out: &mut [u64]) -> ResultNumbers
    ensures { LendsBy (F.lines form) (λ o. listed repetition_numbers o graph (length out.old)) (λ o. numbers_of repetition_numbers o graph) (result_numbers result) out.old out.new }
{
    ResultNumbers::from(calls::repetition(form, graph, out))
}

pub fn skips<F: Sheet>(form: F, graph: u64, out: &mut [u64]) -> ResultNumbers
    ensures { LendsBy (F.lines form) (λ o. listed skip_numbers o graph (length out.old)) (λ o. numbers_of skip_numbers o graph) (result_numbers result) out.old out.new }
{
    ResultNumbers::from(calls::skips(form, graph, out))
}

pub fn tasks<F: Sheet>(form: F, graph: u64, out: &mut [u64]) -> ResultNumbers
    ensures { LendsBy (F.lines form) (λ o. listed task_list o graph (length out.old)) (λ o. numbers_of task_list o graph) (result_numbers result) out.old out.new }
{
    ResultNumbers::from(calls::tasks(form, graph, out))
}

pub fn unpack(sheet: &[u8], out: &mut [u32]) -> ResultNumbers
    ensures { SheetLends sheet.now (λ o. whole o (length (unpacked sheet.now)) (length out.old)) (λ _. unpacked sheet.now) (result_numbers result) out.old out.new }
{
    ResultNumbers::from(calls::unpack(sheet, out))
}

pub fn pack(numbers: &[u32], out: &mut [u8]) -> ResultNumbers
    ensures { ListLends numbers.now (λ o. whole o (length (packed numbers.now)) (length out.old)) (λ _. packed numbers.now) (result_numbers result) out.old out.new }
{
    ResultNumbers::from(calls::pack(numbers, out))
}
