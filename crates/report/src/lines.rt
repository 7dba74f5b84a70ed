// The lines of the steps of an order, and of the adds of a sheet.
ghost use Rattle.std.specs.Prelude.{◌≡◌, ◌≤◌, length};
ghost use Rattle.sheet.specs.Sheets.{entered};
ghost use Rattle.text.specs.Contents.{content, with_words};
ghost use Rattle.report.specs.Lines.{lines_of_steps, lines_of_lates};

use crate::line::{LateLine, StepLine};
use item::item::Item;
use sheet::operation::Method;
use sheet::sheet::Sheet;
use text::text::Text;

// A line for each step of the order.
pub(crate) fn say_steps(order: &[u16], ranks: &[u16], instants: &[u64], text: &mut Text)
    requires ranks { length order.now ≤ length ranks.now }
    requires instants { length order.now ≤ length instants.now }
    ensures said { content text.new ≡ with_words (lines_of_steps order.now ranks.now instants.now) (content text.old) }
    ensures short { length order.now ≤ 1024 → length (lines_of_steps order.now ranks.now instants.now) ≤ 102400 }
{
    for (step, ((operation, rank), at)) in order.iter().zip(ranks).zip(instants).enumerate() {
        let line = StepLine {
            step,
            operation: *operation,
            rank: *rank,
            at: *at,
        };
        line.say(text);
    }
}

// A line for each add of the sheet, in the order of their numbers.
pub(crate) fn say_lates<I: Item>(sheet: &Sheet<I>, latenesses: &[u16], text: &mut Text)
    requires { length (entered sheet.now) ≤ length latenesses.now }
    ensures said { content text.new ≡ with_words (lines_of_lates (entered sheet.now) latenesses.now) (content text.old) }
    ensures short { length (lines_of_lates (entered sheet.now) latenesses.now) ≤ 48128 }
{
    for (number, (op, late)) in sheet.all().iter().zip(latenesses).enumerate() {
        if let Method::Add(_) = op.method {
            let line = LateLine {
                number,
                late: *late,
            };
            line.say(text);
        }
    }
}
