//! The lines of a plan, and the line that tells why there is none.
ghost use Rattle.std.specs.Prelude.{◌≡◌, [], ◌++◌, ◌≤◌, length, decimal, IfOk, OnOk};
ghost use Rattle.paraid_planning.specs.Planned.{plan_lines, unplanned_line};
ghost use Rattle.paraid_trace.specs.StateTexts.{numbers_text};

use crate::Unplanned;
use paraid_base::NoMemory;
use paraid_schedule::GearPlan;
use paraid_trace::Text;
use std::alloc::Global;

fn push(text: &mut Vec<u8>, bytes: &[u8]) -> Result<(), NoMemory>
    ensures { OnOk result (text.new.items ≡ text.old.items ++ bytes.now) }
{
    match text.extend_from_slice(bytes) {
        Ok(()) => Ok(()),
        Err(_) => Err(NoMemory),
    }
}

// Some words and a number.
fn push_word(text: &mut Vec<u8>, word: &[u8], number: u64) -> Result<(), NoMemory>
    requires { length word.now ≤ 600 }
    ensures { OnOk result (text.new.items ≡ text.old.items ++ (word.now ++ decimal number)) }
{
    let mut piece = Text::new();
    piece.push(word);
    piece.push_number(number);
    push(text, piece.as_slice())
}

// A word for each gear.
fn push_gears(text: &mut Vec<u8>, gears: &[u8]) -> Result<(), NoMemory>
    ensures { OnOk result (text.new.items ≡ text.old.items ++ numbers_text gears.now) }
{
    for gear in gears {
        let Ok(()) = push_word(text, b" ", u64::from(*gear)) else {
            return Err(NoMemory);
        };
    }
    Ok(())
}

/// The lines of a plan.
pub fn plan_text(alloc: Global, plan: &GearPlan) -> Result<Vec<u8>, NoMemory>
    ensures { IfOk result (λ text. text.items ≡ plan_lines plan.now.cost plan.now.gears) }
{
    let mut text = Vec::new(alloc);
    push_word(&mut text, b"plan cost ", plan.cost())?;
    push(&mut text, b"\ngears")?;
    push_gears(&mut text, plan.gears())?;
    push(&mut text, b"\n")?;
    Ok(text)
}

/// Why there is no plan.
pub fn unplanned_text(text: &mut Text, cause: Unplanned)
    requires { text.old ≡ [] }
    ensures { text.new ≡ unplanned_line cause }
{
    match cause {
        Unplanned::Source => text.push(b"source\n"),
        Unplanned::TooLong => text.push(b"toolong\n"),
        Unplanned::NoMemory => text.push(b"nomemory\n"),
        Unplanned::Demand { at } => {
            text.push(b"demand ");
            text.push_number(u64::from(at));
            text.push(b"\n");
        }
    }
}
