// The text of a line.

ghost use Rattle.std.specs.Prelude.{◌≡◌, ◌++◌, OnOk};
ghost use Rattle.std.specs.Str.{IsAscii};
ghost use Rattle.ls_decide.specs.Answers.{IsPlainAnswer};
ghost use Rattle.subtypep_app.specs.Report.{answer_text, membership_text, object_refusal_text, body_text, refusal_name, place_text, text_at};
ghost use Rattle.subtypep_app.specs.steps.Lines.{IsPlainLine};

use crate::line::Line;
use itoa::Buffer;
use ls_decide::{Answer, Belongs};
use ls_grammar::{ObjectRefusal, Refusal, RefusalKind};
use ls_object::Text;
use ls_reader::Span;
use std::alloc::AllocError;

/// Appends a place as its line and its column.
pub(crate) fn push_place(out: &mut Text, span: Span) -> Result<(), AllocError>
    ensures { OnOk result (out.new ≡ out.old ++ place_text span) }
{
    let mut buffer = Buffer::new();
    out.push_ascii(buffer.format(span.line))?;
    out.push_ascii(":")?;
    let mut buffer = Buffer::new();
    out.push_ascii(buffer.format(span.column))
}

/// Appends a kind, and the place of what is of that kind.
pub(crate) fn push_at(out: &mut Text, kind: &str, place: Span) -> Result<(), AllocError>
    requires { IsAscii kind.now }
    ensures { OnOk result (out.new ≡ out.old ++ (kind.now ++ place_text place)) }
{
    out.push_ascii(kind)?;
    push_place(out, place)?;
    Ok(())
}

fn push_answer(out: &mut Text, answer: &Answer) -> Result<(), AllocError>
    requires { IsPlainAnswer answer.now }
    ensures { OnOk result (out.new ≡ out.old ++ answer_text answer.now) }
{
    match answer {
        Answer::Yes => out.push_ascii("T")?,
        Answer::No(object) => {
            out.push_ascii("NIL WITNESS ")?;
            object.write_text(out)?;
        }
        Answer::Unsure(object) => {
            out.push_ascii("NIL UNSURE ")?;
            object.write_text(out)?;
        }
        Answer::TooLarge => out.push_ascii("TOO-LARGE")?,
    }
    Ok(())
}

fn membership_text(answer: &Belongs) -> &'static str
    ensures ascii { IsAscii result.now }
    ensures text { result.now ≡ membership_text answer.now }
{
    match answer {
        Belongs::Inside => "T",
        Belongs::Outside => "NIL",
        Belongs::Depends => "UNSURE",
        Belongs::TooLarge => "TOO-LARGE",
    }
}

/// The text of a kind: in capitals, with a hyphen between its words.
fn refusal_name(kind: RefusalKind) -> &'static str
    ensures ascii { IsAscii result.now }
    ensures text { result.now ≡ refusal_name kind }
{
    match kind {
        RefusalKind::UnknownType => "UNKNOWN-TYPE",
        RefusalKind::ClassType => "CLASS-TYPE",
        RefusalKind::NameTwice => "NAME-TWICE",
        RefusalKind::RecursiveType => "RECURSIVE-TYPE",
        RefusalKind::CodeBody => "CODE-BODY",
        RefusalKind::BadDefinition => "BAD-DEFINITION",
        RefusalKind::ArgumentCount => "ARGUMENT-COUNT",
        RefusalKind::FloatRange => "FLOAT-RANGE",
        RefusalKind::ComplexPart => "COMPLEX-PART",
        RefusalKind::FunctionList => "FUNCTION-LIST",
        RefusalKind::BadArgument => "BAD-ARGUMENT",
        RefusalKind::BadBound => "BAD-BOUND",
        RefusalKind::NumberTooWide => "NUMBER-TOO-WIDE",
        RefusalKind::MemberObject => "MEMBER-OBJECT",
        RefusalKind::StarNotAllowed => "STAR-NOT-ALLOWED",
        RefusalKind::TooDeep => "TOO-DEEP",
        RefusalKind::TooManyNodes => "TOO-MANY-NODES",
    }
}

fn push_refusal(out: &mut Text, refusal: &Refusal) -> Result<(), AllocError>
    ensures { OnOk result (out.new ≡ out.old ++ body_text (Line.Refused refusal.now)) }
{
    out.push_ascii("REFUSED ")?;
    out.push_ascii(refusal_name(refusal.kind))?;
    out.push_ascii(" ")?;
    push_place(out, refusal.place)?;
    Ok(())
}

fn push_object_refusal(out: &mut Text, refusal: &ObjectRefusal) -> Result<(), AllocError>
    ensures { OnOk result (out.new ≡ out.old ++ object_refusal_text refusal.now) }
{
    match refusal {
        ObjectRefusal::NoLiteral(place) => push_at(out, "NO-LITERAL ", *place),
        ObjectRefusal::NumberTooWide(place) => push_at(out, "NUMBER-TOO-WIDE ", *place),
        ObjectRefusal::TooDeep(place) => push_at(out, "TOO-DEEP ", *place),
        ObjectRefusal::Memory => Ok(()),
    }
}

fn push_no_object(out: &mut Text, refusal: &ObjectRefusal) -> Result<(), AllocError>
    ensures { OnOk result (out.new ≡ out.old ++ body_text (Line.NoObject refusal.now)) }
{
    out.push_ascii("REFUSED ")?;
    push_object_refusal(out, refusal)
}

fn push_body(out: &mut Text, line: &Line) -> Result<(), AllocError>
    requires { IsPlainLine line.now }
    ensures { OnOk result (out.new ≡ out.old ++ body_text line.now) }
{
    match line {
        Line::Answered(answer) => push_answer(out, answer),
        Line::Placed(answer) => out.push_ascii(membership_text(answer)),
        Line::Refused(refusal) => push_refusal(out, refusal),
        Line::NoObject(refusal) => push_no_object(out, refusal),
    }
}

/// Appends the line at a place, with a newline.
pub(crate) fn push_line(out: &mut Text, span: Span, line: &Line) -> Result<(), AllocError>
    requires { IsPlainLine line.now }
    ensures { OnOk result (out.new ≡ out.old ++ text_at span line.now) }
{
    push_place(out, span)?;
    out.push_ascii(" ")?;
    push_body(out, line)?;
    out.push_ascii("\n")
}
