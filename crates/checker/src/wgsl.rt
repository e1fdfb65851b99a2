// The output for WGSL texts.

use crate::{Form, fault, print_text, print_traced, print_translation, requested_by, status};
use check_explanation::Traced;
use check_wgsl::{
    Cause, Diagnosed, WgslError, WgslVerdict, check_wgsl, explain_wgsl, message_of, unread_object,
    unread_text, wgsl_document,
};
use std::process::ExitCode;

// The exit status for a text.
fn wgsl_status(verdict: WgslVerdict) -> u8 {
    match verdict {
        WgslVerdict::Accepted => 0,
        WgslVerdict::Refused => 1,
        WgslVerdict::Unread => 3,
    }
}

// Prints the verdict and the report, or why no module was read.
fn print_verdict(rt: &HostRuntime, bytes: &[u8]) -> ExitCode {
    match check_wgsl(rt.alloc(), bytes) {
        Ok(answer) => {
            let status = wgsl_status(answer.verdict);
            print_text(rt, Ok(answer.text), "", status)
        }
        Err(_) => fault(rt, "memory"),
    }
}

// Prints why no module was read.
fn print_unread(rt: &HostRuntime, form: Form, bytes: &[u8], error: &WgslError) -> ExitCode {
    let alloc = rt.alloc();
    if error.cause == Cause::Memory {
        return fault(rt, "memory");
    }
    let text = match form {
        Form::Object | Form::ObjectWithLeaves => unread_object(alloc, bytes, error),
        Form::Line | Form::LineWithNames => unread_text(alloc, bytes, error),
        Form::Verdict | Form::Leaves | Form::NamedLeaves | Form::Document => {
            message_of(alloc, bytes, error)
        }
    };
    print_text(rt, text, "\n", 3)
}

// Prints the explanation of an invalid module.
fn print_refused(rt: &HostRuntime, form: Form, bytes: &[u8], diagnosed: &Diagnosed) -> ExitCode {
    let alloc = rt.alloc();
    let (text, end) = match form {
        Form::Object | Form::ObjectWithLeaves => (diagnosed.json(alloc), "\n"),
        Form::Line => (diagnosed.text(alloc, bytes, false), "\n"),
        Form::LineWithNames | Form::NamedLeaves => (diagnosed.text(alloc, bytes, true), "\n"),
        Form::Verdict | Form::Leaves | Form::Document => (diagnosed.explanation.listing(alloc), ""),
    };
    print_text(rt, text, end, 1)
}

// Prints an explanation and frees it.
fn print_diagnosed(rt: &HostRuntime, form: Form, bytes: &[u8], diagnosed: Diagnosed) -> ExitCode {
    if status(&diagnosed.explanation) == 0 {
        return print_traced(
            rt,
            form,
            Traced::of_document(rt.alloc(), diagnosed.explanation),
        );
    }
    let code = print_refused(rt, form, bytes, &diagnosed);
    drop(diagnosed);
    code
}

// Prints the document that a text is translated to.
fn print_translated(rt: &HostRuntime, bytes: &[u8]) -> ExitCode {
    match wgsl_document(rt.alloc(), bytes) {
        Ok(document) => print_translation(rt, document),
        Err(error) => print_unread(rt, Form::Document, bytes, &error),
    }
}

// Prints the verdict on a WGSL text.
pub(crate) fn print_wgsl(rt: &HostRuntime, form: Form, bytes: &[u8]) -> ExitCode {
    match form {
        Form::Verdict => print_verdict(rt, bytes),
        Form::Document => print_translated(rt, bytes),
        Form::Line
        | Form::LineWithNames
        | Form::Leaves
        | Form::NamedLeaves
        | Form::Object
        | Form::ObjectWithLeaves => {
            match explain_wgsl(rt.alloc(), requested_by(form), bytes) {
                Ok(diagnosed) => print_diagnosed(rt, form, bytes, diagnosed),
                Err(error) => print_unread(rt, form, bytes, &error),
            }
        }
    }
}
