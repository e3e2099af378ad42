// A load beside the memory that it reads: what memory says of the elements that it asks for.
ghost use Rattle.std.specs.Prelude.{◌≡◌, ◌≤◌};
ghost use Rattle.steps.specs.Answers.{report_of};
ghost use Rattle.bench.specs.Inside.Loads.{answers_to, survey_by};

use crate::actives::Lanes;
use memory::{Areas, BadByte};
use steps::{Answer, StepResult};

// A load, with the two areas that it reads. Its methods take an element's, a lane's and a destination's number as those of `Lanes` do.
#[derive(Clone, Copy)]
pub(crate) struct Load<'a> {
    pub lanes: Lanes<'a>,
    pub areas: Areas<'a>,
}

impl<'a> Load<'a> {
    // What memory says of element e.
    #[tactic(auto, unfolding(steps::specs::Outcomes::answers_in, steps::specs::Lanes::element_at))]
    pub(crate) fn element(self, e: u64) -> Result<u64, BadByte>
        requires { e ≤ 256 }
        ensures { result ≡ answers_to self.entry e }
    {
        let plan = self.lanes.plan;
        self.areas
            .element(plan.start.plus(e * plan.size.bytes()), plan.size)
    }

    // The elements that are asked for, upward, to the first bad byte or to the end, with their count. Nothing is written.
    pub(crate) fn survey(self) -> StepResult
        ensures { report_of result ≡ survey_by self.entry }
    {
        let mut count = 0;
        for e in 0..self.lanes.plan.elements {
            if self.lanes.asks(e) {
                match self.element(e) {
                    Ok(_) => count += 1,
                    Err(bad) => return StepResult {
                        count,
                        answer: Answer::Faulted(bad.fault, bad.at, e),
                    },
                }
            }
        }
        StepResult {
            count,
            answer: Answer::Ran,
        }
    }
}
