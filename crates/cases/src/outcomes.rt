// The bytes of an outcome: what is told of every question, and what behind it is told of a window.
ghost use Rattle.std.specs.Prelude.{◌≡◌, ◌*◌, ◌≤◌, ◌++◌, length, drop};
ghost use Rattle.steps.specs.Answers.{report_of};
ghost use Rattle.cases.specs.Outcomes.{eights, report_bytes, window_bytes};
ghost use Rattle.cases.specs.Inside.{report_in};

use steps::StepResult;

// What is told first: the answer's number, and count, element and address, a byte and three numbers of the format. `hosts::StepNumbers` is C's layout of
// the same.
#[derive(Clone, Copy, Default)]
pub struct Told {
    pub number: u8,
    pub count: u64,
    pub element: u64,
    pub address: u64,
}

// What a step tells.
impl From<StepResult> for Told {
    ghost from_gives = { λ res told. report_in told ≡ report_of res };

    fn from(res: StepResult) -> Told {
        let answer = res.answer;
        Told {
            number: answer.number() as u8,
            count: res.count,
            element: answer.element(),
            address: answer.address().0,
        }
    }
}

// Writes numbers of 8 bytes one after the other.
pub(crate) fn put_numbers(dst: &mut [u8], x: &[u64])
    requires { length dst.old ≡ length x.now * 8 }
    ensures { dst.new ≡ eights x.now }
{
    for (i, v) in x.iter().enumerate() {
        ground::put(&mut dst[i * 8..i * 8 + 8], *v);
    }
}

// Writes what is told.
pub(crate) fn put_report(dst: &mut [u8], told: Told)
    requires { 25 ≤ length dst.old }
    ensures { dst.new ≡ report_bytes (report_in told) ++ drop 25 dst.old }
{
    put_numbers(&mut dst[1..25], &[told.count, told.element, told.address]);
    dst[0] = told.number;
}

// Writes the outcome of a window: what is told, and that no byte is behind it.
pub(crate) fn put_window(out: &mut [u8], told: Told)
    requires { 33 ≤ length out.old }
    ensures { out.new ≡ window_bytes (report_in told) ++ drop 33 out.old }
{
    out[25..33].fill(0);
    put_report(out, told);
}
