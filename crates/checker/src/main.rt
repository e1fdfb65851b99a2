// Validates the document on standard input. With `--explain` it prints why it is invalid, and where, in one line, with `--names`
// followed by the error in `Debug` form, or with `--json` everything as one JSON object; with `--leaves` also the contents of the
// buffers of a valid one. With `--spirv` the SPIR-V module there, in the same forms, and with `--document` the document it is
// translated to. With `--wgsl` the WGSL text there, likewise. With `--lsp` as its first argument it is a language server. Unknown
// arguments are ignored.
#![tactic(auto)]

mod choices;
mod chosen;
mod editor;
mod wgsl;

use check_explanation::{
    Explanation, MAX_TAKEN, Requested, SpirvAnswer, SpirvError, SpirvVerdict, Traced, check_spirv,
    document_text, error_text, explain, explain_spirv, unread_json,
};
use check_ports::{Sink, Source, TakeError};
use choices::Choices;
use chosen::{chosen_document, chosen_json, explain_chosen};
use shader_check::{check_document, outcome};
use std::alloc::AllocError;
use std::env::{Env, FillError};
use std::io;
use std::process::ExitCode;
use std::str::from_utf8;
use wgsl::print_wgsl;

// The output form.
#[derive(Clone, Copy)]
enum Form {
    Verdict,
    Line,
    LineWithNames,
    Leaves,
    NamedLeaves,
    Object,
    ObjectWithLeaves,
    Document,
}

// The option whose value is the next argument.
#[derive(Clone, Copy)]
enum Choice {
    Without,
    Capabilities,
}

// The command-line options.
#[derive(Clone, Copy)]
struct Arguments {
    form: Form,
    is_spirv: bool,
    is_wgsl: bool,
    choices: Choices,
    // the option whose value is the next argument
    open: Option<Choice>,
}

fn fault(rt: &HostRuntime, message: &str) -> ExitCode {
    let _ = eprintln!(rt; "fault: {message}");
    ExitCode::from(2)
}

// The output form with this name.
fn form_of(word: &str) -> Option<Form> {
    match word {
        "--explain" => Some(Form::Line),
        "--names" => Some(Form::LineWithNames),
        "--leaves" => Some(Form::Leaves),
        "--json" => Some(Form::Object),
        "--verdict" => Some(Form::Verdict),
        "--document" => Some(Form::Document),
        _ => None,
    }
}

// The output form of two arguments: the later one, except that leaves can be combined with names or an object.
fn joined(before: Form, after: Form) -> Form {
    match (before, after) {
        (Form::Leaves, Form::LineWithNames) | (Form::LineWithNames, Form::Leaves) => {
            Form::NamedLeaves
        }
        (Form::Leaves, Form::Object) | (Form::Object, Form::Leaves) => Form::ObjectWithLeaves,
        _ => after,
    }
}

// Reads an argument; an unknown one is ignored. Returns whether an option's value names existing checks or capabilities.
fn take_word(wanted: &mut Arguments, word: &str) -> bool {
    match wanted.open {
        Some(Choice::Without) => {
            wanted.open = None;
            return wanted.choices.leave_out(word);
        }
        Some(Choice::Capabilities) => {
            wanted.open = None;
            return wanted.choices.allow(word);
        }
        None => {}
    }
    match word {
        "--spirv" => {
            wanted.is_spirv = true;
            return true;
        }
        "--wgsl" => {
            wanted.is_wgsl = true;
            return true;
        }
        "--without" => {
            wanted.open = Some(Choice::Without);
            return true;
        }
        "--capabilities" => {
            wanted.open = Some(Choice::Capabilities);
            return true;
        }
        _ => {}
    }
    if let Some(found) = form_of(word) {
        wanted.form = joined(wanted.form, found);
    }
    true
}

// The maximum length of an argument, in bytes: enough for the words of all capabilities.
const MAX_WORD: usize = 1024;

// The options of the arguments, with the last output form; nothing if checks or capabilities are misspelled, or given without a
// SPIR-V module. It allocates nothing.
fn read_arguments(rt: &HostRuntime) -> Option<Arguments> {
    let mut wanted = Arguments {
        form: Form::Verdict,
        is_spirv: false,
        is_wgsl: false,
        choices: Choices::NONE,
        open: None,
    };
    for place in 1..usize::MAX {
        let mut buffer = [0; MAX_WORD];
        let length = match rt.arg(place, &mut buffer) {
            Ok(length) => length,
            Err(FillError::NotPresent) => break,
            // an argument that is too long is not an option
            Err(FillError::TooLong) if wanted.open.is_none() => continue,
            Err(FillError::TooLong) => return None,
        };
        let word = from_utf8(buffer.get(..length).unwrap_or(&[])).unwrap_or("");
        if !take_word(&mut wanted, word) {
            return None;
        }
    }
    // these options apply to SPIR-V modules only
    let is_one = !(wanted.is_spirv && wanted.is_wgsl);
    let is_whole = is_one && wanted.open.is_none() && (wanted.is_spirv || wanted.choices.is_none());
    if is_whole { Some(wanted) } else { None }
}

// The lines that this form requests for a valid document.
fn requested_by(form: Form) -> Requested {
    match form {
        Form::Line => Requested::Nothing,
        Form::Leaves | Form::NamedLeaves => Requested::Leaves,
        Form::ObjectWithLeaves => Requested::ReportWithLeaves,
        Form::Verdict | Form::LineWithNames | Form::Object | Form::Document => Requested::Report,
    }
}

// Exits with this status, if everything was written.
fn ended(rt: &HostRuntime, written: io::Result<()>, status: u8) -> ExitCode {
    match written {
        Ok(()) => ExitCode::from(status),
        Err(_) => fault(rt, "write"),
    }
}

// Prints a text, unless it is out of memory.
fn print_text(
    rt: &HostRuntime,
    text: Result<String, AllocError>,
    end: &str,
    status: u8,
) -> ExitCode {
    match text {
        Ok(text) => {
            let written = print!(rt; "{text}{end}");
            drop(text);
            ended(rt, written, status)
        }
        Err(_) => fault(rt, "memory"),
    }
}

// Prints the line, followed by the error in `Debug` form; for a valid document the requested lines, with the names of its parts.
fn print_names(rt: &HostRuntime, traced: &Traced, status: u8) -> ExitCode {
    match (&traced.explanation, traced.explanation.error_name()) {
        (_, Some(error)) => ended(rt, println!(rt; "{traced} ({error})"), status),
        (Explanation::Accepted { .. }, None) => {
            print_text(rt, traced.named(rt.alloc()), "", status)
        }
        (_, None) => ended(rt, println!(rt; "{traced}"), status),
    }
}

fn status(explanation: &Explanation) -> u8 {
    match explanation {
        Explanation::Accepted { .. } => 0,
        Explanation::NoDocument(..) | Explanation::Refused(..) => 1,
    }
}

// Prints an explanation.
fn print_explanation(rt: &HostRuntime, form: Form, traced: &Traced) -> ExitCode {
    let status = status(&traced.explanation);
    match form {
        Form::Line => ended(rt, println!(rt; "{traced}"), status),
        Form::LineWithNames | Form::NamedLeaves => print_names(rt, traced, status),
        Form::Object | Form::ObjectWithLeaves => {
            print_text(rt, traced.json(rt.alloc(), &[]), "\n", status)
        }
        Form::Verdict | Form::Leaves | Form::Document => {
            print_text(rt, traced.explanation.listing(rt.alloc()), "", status)
        }
    }
}

// Prints an explanation and frees it. A call frees it, which is cheaper to prove than dropping it at the return.
fn print_traced(rt: &HostRuntime, form: Form, traced: Traced) -> ExitCode {
    let code = print_explanation(rt, form, &traced);
    drop(traced);
    code
}

// The exit status for a SPIR-V module.
fn spirv_status(answer: &SpirvAnswer) -> u8 {
    match answer.verdict {
        SpirvVerdict::Accepted => 0,
        SpirvVerdict::Refused => 1,
        SpirvVerdict::Unread => 3,
    }
}

// Prints why no module was read.
fn print_unread(rt: &HostRuntime, form: Form, bytes: &[u8], error: &SpirvError) -> ExitCode {
    match error {
        SpirvError::Memory => fault(rt, "memory"),
        SpirvError::Malformed { .. } | SpirvError::Unsupported { .. } => match form {
            Form::Object | Form::ObjectWithLeaves => {
                print_text(rt, unread_json(rt.alloc(), bytes, error), "\n", 3)
            }
            Form::Verdict
            | Form::Line
            | Form::LineWithNames
            | Form::Leaves
            | Form::NamedLeaves
            | Form::Document => print_text(rt, error_text(rt.alloc(), bytes, error), "\n", 3),
        },
    }
}

// Prints the document that a module is translated to, and says on standard error if it is longer than those that are validated.
pub(crate) fn print_translation(rt: &HostRuntime, text: String) -> ExitCode {
    if text.len() >= MAX_TAKEN {
        let _ = eprintln!(rt;
            "the document has more than 16777216 bytes, so it is refused as a document"
        );
    }
    print_text(rt, Ok(text), "\n", 0)
}

// Prints the verdict on a SPIR-V module.
fn print_spirv(rt: &HostRuntime, form: Form, bytes: &[u8]) -> ExitCode {
    match form {
        Form::Verdict => match check_spirv(rt.alloc(), bytes) {
            Ok(answer) => {
                let status = spirv_status(&answer);
                print_text(rt, Ok(answer.text), "", status)
            }
            Err(_) => fault(rt, "memory"),
        },
        Form::Document => match document_text(rt.alloc(), bytes) {
            Ok(text) => print_translation(rt, text),
            Err(error) => print_unread(rt, form, bytes, &error),
        },
        Form::Line
        | Form::LineWithNames
        | Form::Leaves
        | Form::NamedLeaves
        | Form::Object
        | Form::ObjectWithLeaves => match explain_spirv(rt.alloc(), requested_by(form), bytes) {
            Ok(traced) => print_traced(rt, form, traced),
            Err(error) => print_unread(rt, form, bytes, &error),
        },
    }
}

// Prints the explanation of a module validated with options.
fn print_traced_under(rt: &HostRuntime, form: Form, choices: &Choices, traced: Traced) -> ExitCode {
    if let Form::Object | Form::ObjectWithLeaves = form {
        let status = status(&traced.explanation);
        let text = chosen_json(rt.alloc(), choices, &traced);
        drop(traced);
        return print_text(rt, text, "\n", status);
    }
    print_traced(rt, form, traced)
}

// Prints the verdict on a SPIR-V module validated with options.
fn print_chosen(rt: &HostRuntime, form: Form, choices: &Choices, bytes: &[u8]) -> ExitCode {
    if choices.leaves_out() {
        let _ = eprintln!(rt; "not under all six checks: without {choices}");
    }
    if let Form::Document = form {
        return match chosen_document(rt.alloc(), choices, bytes) {
            Ok(text) => print_translation(rt, text),
            Err(error) => print_unread(rt, form, bytes, &error),
        };
    }
    match explain_chosen(rt.alloc(), requested_by(form), choices, bytes) {
        Ok(traced) => print_traced_under(rt, form, choices, traced),
        Err(error) => print_unread(rt, form, bytes, &error),
    }
}

// Prints the verdict on the document.
fn print_document(rt: &HostRuntime, form: Form, bytes: &[u8]) -> ExitCode {
    match explain(rt.alloc(), requested_by(form), bytes) {
        Ok(explanation) => print_traced(rt, form, Traced::of_document(rt.alloc(), explanation)),
        Err(_) => fault(rt, "memory"),
    }
}

// Prints what the arguments request for these bytes.
fn print_all(rt: &HostRuntime, wanted: Arguments, bytes: &[u8]) -> ExitCode {
    if wanted.is_spirv && !wanted.choices.is_none() {
        print_chosen(rt, wanted.form, &wanted.choices, bytes)
    } else if wanted.is_spirv {
        print_spirv(rt, wanted.form, bytes)
    } else if wanted.is_wgsl {
        print_wgsl(rt, wanted.form, bytes)
    } else {
        print_document(rt, wanted.form, bytes)
    }
}

// Validates the document on standard input: the call that the theorem is about.
fn judge(rt: &HostRuntime) -> ExitCode {
    let mut source = Source::new(rt.reader());
    let mut sink = Sink::new(io::writer(rt));
    let answer = check_document(rt.alloc(), &mut source, &mut sink);
    let (status, message) = outcome(&answer);
    let _ = eprint!(rt; "{message}");
    ExitCode::from(status)
}

fn main(rt: HostRuntime) -> ExitCode {
    if editor::is_wanted(&rt) {
        return editor::serve(&rt);
    }
    let Some(wanted) = read_arguments(&rt) else {
        return fault(
            &rt,
            "--without or --capabilities has a word that it does not take, or no --spirv beside it",
        );
    };
    if let (Form::Verdict, false) = (wanted.form, wanted.is_spirv || wanted.is_wgsl) {
        return judge(&rt);
    }
    let mut source = Source::new(rt.reader());
    let bytes = match source.take_all(rt.alloc(), MAX_TAKEN) {
        Ok(bytes) => bytes,
        Err(TakeError::Memory) => return fault(&rt, "memory"),
        Err(TakeError::Read) => return fault(&rt, "read"),
    };
    let code = print_all(&rt, wanted, &bytes);
    drop(bytes);
    code
}
