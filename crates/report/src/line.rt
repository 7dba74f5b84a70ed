// The lines that are printed of an order that is certified.
ghost use Rattle.std.specs.Prelude.{◌≡◌, ◌≤◌, length};
ghost use Rattle.text.specs.Contents.{content, with_words};
ghost use Rattle.report.specs.Lines.{line_of_step, line_of_late, line_of_certified};

use calls::certificate::Certificate;
use text::piece::Piece::{Number, Word};
use text::text::Text;

// The line of a step: its operation, its rank error and its instant.
#[derive(Clone, Copy, PartialEq, Eq, Debug)]
pub struct StepLine {
    pub step: usize,
    pub operation: u16,
    pub rank: u16,
    pub at: u64,
}

// The line of an add and its lateness.
#[derive(Clone, Copy, PartialEq, Eq, Debug)]
pub struct LateLine {
    pub number: usize,
    pub late: u16,
}

// The line that grants a certificate.
#[derive(Clone, Copy, PartialEq, Eq, Debug)]
pub struct CertifiedLine {
    pub k: u16,
    pub certificate: Certificate,
}

impl StepLine {
    #[tactic(auto, unfolding(crate::specs::Lines::line_of_step))]
    pub fn say(&self, text: &mut Text)
        ensures { content text.new ≡ with_words (line_of_step self.now.step self.now.operation self.now.rank self.now.at) (content text.old) }
    {
        text.say(&[
            Word("step "),
            Number(self.step as u64),
            Word(" op "),
            Number(u64::from(self.operation)),
            Word(" rank "),
            Number(u64::from(self.rank)),
            Word(" at "),
            Number(self.at),
            Word("\n"),
        ]);
    }
}

impl LateLine {
    #[tactic(auto, unfolding(crate::specs::Lines::line_of_late))]
    pub fn say(&self, text: &mut Text)
        ensures { content text.new ≡ with_words (line_of_late self.now.number self.now.late) (content text.old) }
    {
        text.say(&[
            Word("late "),
            Number(self.number as u64),
            Word(" "),
            Number(u64::from(self.late)),
            Word("\n"),
        ]);
    }
}

impl CertifiedLine {
    pub fn say(&self, text: &mut Text)
        ensures said { content text.new ≡ with_words (line_of_certified self.now.k self.now.certificate) (content text.old) }
        ensures short { length (line_of_certified self.now.k self.now.certificate) ≤ 111 }
    {
        text.say(&[
            Word("certified k "),
            Number(u64::from(self.k)),
            Word(" total "),
            Number(u64::from(self.certificate.total)),
            Word(" max "),
            Number(u64::from(self.certificate.largest)),
            Word(" step "),
            Number(u64::from(self.certificate.first)),
            Word("\n"),
        ]);
    }
}
