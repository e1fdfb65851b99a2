// One validator for the modules of several documents in turn.
use document_reader::{Document, DocumentError, read_document};
use function_modules::RealLower;
use ir_flags::Settings;
use ir_items::Module;
use ir_types::refusal::Refusal;
use serde_json::Value;
use shader_check::{Finding, ValidationError, Validator, refused_by};
use std::alloc::{AllocError, Global};
use test_support::call::{completed, freeing, items, told};
use typing_infos::ModuleInfo;

/// The result of a validator.
#[derive(Clone, Copy, Debug, PartialEq, Eq)]
enum Answered {
    Accepted,
    Refused(Finding),
    Memory,
}

// A validator with the settings of a document.
fn validator_for(alloc: Global, settings: Settings) -> Validator<RealLower> {
    let lower = RealLower::new(ModuleInfo::new(alloc));
    let mut validator = Validator::new(alloc, lower, settings.flags, settings.capabilities);
    validator.subgroup_stages(settings.subgroup_stages);
    validator.subgroup_operations(settings.subgroup_operations);
    validator
}

fn answer_of(answer: &Result<ModuleInfo, Refusal<ValidationError>>) -> Answered {
    match answer {
        Ok(_) => Answered::Accepted,
        Err(Refusal::Memory(_)) => Answered::Memory,
        Err(Refusal::Fault(fault)) => Answered::Refused(refused_by(fault.as_inner())),
    }
}

fn judged(validator: &mut Validator<RealLower>, module: &Module) -> Answered {
    let answer = validator.validate(module);
    freeing(answer_of(&answer), answer)
}

// Appends the documents in these strings to a list, up to one that is not a document.
fn add_documents(
    alloc: Global,
    documents: &mut Vec<Document>,
    texts: &[Value],
) -> Result<(), AllocError> {
    for text in texts {
        match read_document(alloc, text.as_str().unwrap_or("").as_bytes()) {
            Ok(document) => documents.push(document)?,
            Err(DocumentError::Memory) => return Err(AllocError),
            Err(_) => return Ok(()),
        }
    }
    Ok(())
}

// Appends the results of a validator for the modules of these documents, in turn, to a list.
fn add_answers(
    validator: &mut Validator<RealLower>,
    documents: &[Document],
    answers: &mut Vec<Answered>,
) -> Result<(), AllocError> {
    for document in documents {
        answers.push(judged(validator, &document.module))?;
    }
    Ok(())
}

// The results of a validator for the modules of these documents, in turn.
fn answers_of(
    alloc: Global,
    validator: &mut Validator<RealLower>,
    documents: &[Document],
) -> Result<String, AllocError> {
    let mut answers = Vec::with_capacity(alloc, documents.len())?;
    told(
        alloc,
        completed(add_answers(validator, documents, &mut answers), answers)?,
    )
}

// The same for one validator with the settings of the first.
fn judged_in_turn(alloc: Global, documents: &[Document]) -> Result<String, AllocError> {
    let Some(first) = documents.first() else {
        return String::from_str(alloc, "no document");
    };
    let mut validator = validator_for(alloc, first.settings);
    freeing(answers_of(alloc, &mut validator, documents), validator)
}

// The same for the documents in these strings, which are read into this list.
fn read_and_judged(
    alloc: Global,
    documents: &mut Vec<Document>,
    texts: &[Value],
) -> Result<String, AllocError> {
    add_documents(alloc, documents, texts)?;
    judged_in_turn(alloc, documents)
}

// The same for a list of strings.
fn turns_of(alloc: Global, texts: &[Value]) -> Result<String, AllocError> {
    let mut documents = Vec::new(alloc);
    freeing(read_and_judged(alloc, &mut documents, texts), documents)
}

/// The results of one validator for the modules of the documents in this list, in turn, with the settings of the first.
pub fn turns_told(alloc: Global, list: &str) -> Result<String, AllocError> {
    match Value::from_str(alloc, list) {
        Ok(texts) => freeing(turns_of(alloc, items(&texts)), texts),
        Err(_) => String::from_str(alloc, "no list"),
    }
}
