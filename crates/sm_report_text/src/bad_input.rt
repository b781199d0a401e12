//! The line of an input that is no document.
ghost use Rattle.std.specs.Prelude.{◌≡◌, ◌++◌, OnOk, string_bytes};
ghost use Rattle.sm_plan_text.specs.Members.{text_of};
ghost use Rattle.sm_report_text.specs.BadInput.{bad_input_line, bad_member_line, text_fault_line, too_long_line};

use sm_plan_text::{Member, TextFault};
use std::alloc::AllocError;

fn push_bad_input(out: &mut String, what: &str) -> Result<(), AllocError>
    ensures { OnOk result (string_bytes out.new ≡ string_bytes out.old ++ bad_input_line what.now) }
{
    writeln!(out, "bad input: {what}")
}

fn push_bad_member(out: &mut String, what: &str, member: Member) -> Result<(), AllocError>
    ensures { OnOk result (string_bytes out.new ≡ string_bytes out.old ++ bad_member_line what.now (text_of member)) }
{
    let member = member.text();
    writeln!(out, "bad input: {what} {member}")
}

/// Adds the line that says what is wrong with a text.
pub fn push_text_fault(out: &mut String, fault: TextFault) -> Result<(), AllocError>
    ensures { OnOk result (string_bytes out.new ≡ string_bytes out.old ++ text_fault_line fault) }
{
    match fault {
        TextFault::NoMemory => push_bad_input(out, "1 NoMemory"),
        TextFault::NotJson => push_bad_input(out, "2 NotJson"),
        TextFault::Shape { member } => push_bad_member(out, "3 Shape", member),
        TextFault::UnknownName { member } => push_bad_member(out, "4 UnknownName", member),
        TextFault::TooMany { member } => push_bad_member(out, "5 TooMany", member),
        TextFault::Number { member } => push_bad_member(out, "6 Number", member),
    }
}

/// Adds the line of an input that is longer than any document may be.
pub fn push_too_long(out: &mut String) -> Result<(), AllocError>
    ensures { OnOk result (string_bytes out.new ≡ string_bytes out.old ++ too_long_line) }
{
    push_bad_input(out, "7 TooLong")
}
