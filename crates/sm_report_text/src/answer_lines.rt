//! The lines of the answers to calls.
ghost use Rattle.std.specs.Prelude.{◌≡◌, ◌++◌, Some, None, OnOk, string_bytes};
ghost use Rattle.sm_report_text.specs.AnswerLines.{refusal_number, refusal_name, answer_line};

use sm_server::Refusal;
use std::alloc::AllocError;

/// Returns the number of a refusal.
fn number_of(refusal: Refusal) -> u8
    ensures { result ≡ refusal_number refusal }
{
    match refusal {
        Refusal::Down => 1,
        Refusal::AlreadyHeld => 2,
        Refusal::NotHeld => 3,
        Refusal::WrongRole => 4,
        Refusal::NoRoom => 5,
    }
}

/// Returns the name of a refusal.
fn name_of(refusal: Refusal) -> &'static str
    ensures { result.now ≡ refusal_name refusal }
{
    match refusal {
        Refusal::Down => "Down",
        Refusal::AlreadyHeld => "AlreadyHeld",
        Refusal::NotHeld => "NotHeld",
        Refusal::WrongRole => "WrongRole",
        Refusal::NoRoom => "NoRoom",
    }
}

/// Adds the line of a call that was made.
pub fn push_made(out: &mut String, i: usize) -> Result<(), AllocError>
    ensures { OnOk result (string_bytes out.new ≡ string_bytes out.old ++ answer_line i None) }
{
    writeln!(out, "call {i}: ok")
}

/// Adds the line of a call that was refused.
pub fn push_refused(out: &mut String, i: usize, refusal: Refusal) -> Result<(), AllocError>
    ensures { OnOk result (string_bytes out.new ≡ string_bytes out.old ++ answer_line i (Some refusal)) }
{
    let number = number_of(refusal);
    let name = name_of(refusal);
    writeln!(out, "call {i}: refused {number} {name}")
}
