// What the program tells: each step that differs, and how many agree.
use crate::Step;
use shares::Share;
use std::io;
use std::io::Print;

// A row of the table: the answer, and the steps that were recorded with it.
#[derive(Clone, Copy)]
struct Row {
    answer: &'static str,
    share: Share,
}

// The eight answers, by number.
const ANSWERS: [&str; 8] = [
    "0 ran",
    "1 set-up",
    "2 outside",
    "3 undefined",
    "4 switched off",
    "5 stack",
    "6 no memory",
    "7 denied",
];

// The rows by the number of the answer, and all steps.
#[derive(Clone, Copy)]
pub struct Tally {
    by_answer: [Row; 8],
    steps: Share,
}

impl Tally {
    pub(crate) fn new() -> Tally {
        Tally {
            by_answer: ANSWERS.map(|answer| Row {
                answer,
                share: Share::NONE,
            }),
            steps: Share::NONE,
        }
    }

    // One step more, told where it differs. A recorded answer above 7 has no row.
    pub(crate) fn count(&mut self, rt: &impl Print, number: u64, step: Step) {
        if let Some(row) = self.by_answer.get_mut(step.answer as usize) {
            row.share.count(step.same);
        }
        self.steps.count(step.same);
        if !step.same {
            let answer = step.answer;
            let _ = println!(rt; "step {number} differs; recorded answer {answer}");
        }
    }

    // The table by recorded answer, and all.
    pub(crate) fn write(&self, rt: &impl Print) -> io::Result<()> {
        println!(rt; "recorded answer  agree")?;
        for Row { answer, share } in &self.by_answer {
            println!(rt; "{answer:<17}{share}")?;
        }
        let steps = self.steps;
        println!(rt; "\n{steps} recorded steps agree")
    }
}
