//! What a run leaves: its status, its text and its line, made whole in memory before a byte is
//! written.
ghost use Rattle.std.specs.Prelude.{◌≡◌, ◌++◌, OnOk, IfOk, string_bytes, decimal};
ghost use Rattle.mod_command.specs.Statuses.{detail_part, done_line, line_part, location_part};
ghost use Rattle.mod_command.specs.Statuses.{read_fault_line, refused_line};

use bz_base::{Mem, Refusal, Txt};
use std::alloc::Global;

/// The line of a run that is done.
#[tactic(auto, unfolding(crate::specs::Statuses::done_line))]
pub(crate) fn done_text(alloc: Global, evaluated: u64, reused: u64) -> Mem<Txt>
    ensures { IfOk result (λ line. line ≡ done_line evaluated reused) }
{
    let mut line = String::from_str(alloc, "modtool: ok, ")?;
    push_number(alloc, &mut line, evaluated)?;
    line.push_str(" evaluated, ")?;
    push_number(alloc, &mut line, reused)?;
    line.push_str(" reused\n")?;
    Ok(Txt::of_string(line))
}

/// The line of a failed read.
#[tactic(auto, unfolding(crate::specs::Statuses::read_fault_line))]
pub(crate) fn read_fault_text(alloc: Global, path: &str) -> Mem<Txt>
    ensures { IfOk result (λ line. line ≡ read_fault_line path.now) }
{
    Ok(Txt::of_string(format!(in alloc; "modtool: read fault: {path}\n")?))
}

/// The line of a refusal.
#[tactic(auto, unfolding(crate::specs::Statuses::refused_line))]
pub(crate) fn refused_text(alloc: Global, refusal: &Refusal) -> Mem<Txt>
    ensures { IfOk result (λ line. line ≡ refused_line refusal.now) }
{
    let mut line = String::from_str(alloc, "modtool: refused ")?;
    line.push_str(refusal.code.name())?;
    push_location(alloc, &mut line, refusal)?;
    push_detail(&mut line, refusal.detail.as_str())?;
    line.push_str("\n")?;
    Ok(Txt::of_string(line))
}

fn push_location(alloc: Global, line: &mut String, refusal: &Refusal) -> Mem<()>
    ensures { OnOk result (string_bytes line.new ≡ string_bytes line.old ++ location_part refusal.now) }
{
    let file = refusal.file.as_str();
    if file.is_empty() {
        return Ok(());
    }
    line.push_str(" at ")?;
    line.push_str(file)?;
    let number = if refusal.line == 0 {
        refusal.hint
    } else {
        refusal.line
    };
    push_line(alloc, line, number)
}

fn push_line(alloc: Global, line: &mut String, number: u64) -> Mem<()>
    ensures { OnOk result (string_bytes line.new ≡ string_bytes line.old ++ line_part number) }
{
    if number == 0 {
        return Ok(());
    }
    line.push_str(":")?;
    push_number(alloc, line, number)
}

fn push_number(alloc: Global, line: &mut String, number: u64) -> Mem<()>
    ensures { OnOk result (string_bytes line.new ≡ string_bytes line.old ++ decimal number) }
{
    let digits = number.to_string(alloc)?;
    Ok(line.push_str(digits.as_str())?)
}

fn push_detail(line: &mut String, detail: &str) -> Mem<()>
    ensures { OnOk result (string_bytes line.new ≡ string_bytes line.old ++ detail_part detail.now) }
{
    if detail.is_empty() {
        return Ok(());
    }
    line.push_str(": ")?;
    Ok(line.push_str(detail)?)
}
