// What a call leaves after its allocation failed: each is made, made again after a failure, and all is compared.
//
// If no allocation fails, each call is made once. `bench/rows.py` makes each allocation fail in turn.
ghost use Rattle.typing_forms.specs.judged.Resolutions.{types_view};
ghost use Rattle.typing_layout.specs.found.Held.{AreLayouts};

use document_reader::{Document, build_module};
use ir_sets::unique_arena::UniqueArena;
use ir_types::{IrType, key};
use std::alloc::{AllocError, Global};
use test_support::call::{freeing, told};
use test_support::questions::{Left, came_of};
use typing_forms::types_go_back;
use typing_infos::{FunctionInfo, FunctionParts, ModuleInfo, SampledPairs};
use typing_layout::Layouter;

type Types = UniqueArena<IrType, key::IrType>;

// Layouts before a failure remain after it: as strings, one starts with the other, but for its end.
fn stand(before: &str, after: &str) -> bool {
    after.starts_with(before.strip_suffix("] }").unwrap_or(after))
}

// What a second `update` leaves of a layouter that printed this.
fn updated_again(
    alloc: Global,
    layouter: &mut Layouter,
    types: &Types,
    refused: bool,
    before: &str,
) -> Result<Left, AllocError>
    requires { AreLayouts (types_view types.now) layouter.old }
{
    let again = types_go_back(types) && layouter.update(types).is_ok();
    let after = format!(in alloc; "{layouter:?}")?;
    let stands = freeing(stand(before, &after), after);
    Ok(came_of(refused, again && stands))
}

// What `update` leaves of a layouter.
fn updated(alloc: Global, layouter: &mut Layouter, types: &Types) -> Result<Left, AllocError>
    requires { AreLayouts (types_view types.now) layouter.old }
{
    if !types_go_back(types) {
        return Ok(Left::Changed);
    }
    let refused = layouter.update(types).is_err();
    let before = format!(in alloc; "{layouter:?}")?;
    freeing(
        updated_again(alloc, layouter, types, refused, &before),
        before,
    )
}

// The same for a new one.
fn of_layouts(alloc: Global, document: &Document) -> Result<Left, AllocError> {
    let mut layouter = Layouter::new(alloc);
    freeing(
        updated(alloc, &mut layouter, &document.module.types),
        layouter,
    )
}

// The information on a function without expressions.
fn function_info(alloc: Global, may_kill: bool) -> Result<FunctionInfo, AllocError> {
    let sampling = SampledPairs::new(alloc);
    match sampling.keys(alloc) {
        Ok(sampling_set) => Ok(FunctionInfo::of_parts(FunctionParts {
            may_kill,
            uses: Vec::new(alloc),
            expressions: Vec::new(alloc),
            sampling,
            sampling_set,
        })),
        Err(error) => {
            drop(sampling);
            Err(error)
        }
    }
}

// Whether there are this many functions, of which every second may end the fragment.
fn has_functions(info: &ModuleInfo, count: usize) -> bool {
    info.functions().len() == count
        && info
            .functions()
            .iter()
            .enumerate()
            .all(|(place, function)| function.may_kill == (place % 2 == 1))
}

// What `push_function` leaves of a `ModuleInfo` of this many functions: whether it failed and succeeded when repeated; `None`
// if the `ModuleInfo` differs then.
fn push_function(
    alloc: Global,
    info: &mut ModuleInfo,
    place: usize,
) -> Result<Option<bool>, AllocError> {
    let kills = place % 2 == 1;
    if info.push_function(function_info(alloc, kills)?).is_ok() {
        return Ok(Some(false));
    }
    if !has_functions(info, place) {
        return Ok(None);
    }
    info.push_function(function_info(alloc, kills)?)?;
    Ok(Some(true))
}

// What `push_entry_point` leaves: whether it failed and succeeded when repeated.
fn push_entry_point(
    alloc: Global,
    info: &mut ModuleInfo,
    place: usize,
) -> Result<bool, AllocError> {
    let kills = place % 2 == 1;
    if info.push_entry_point(function_info(alloc, kills)?).is_ok() {
        return Ok(false);
    }
    info.push_entry_point(function_info(alloc, kills)?)?;
    Ok(true)
}

// What both leave of a `ModuleInfo` without functions.
fn pushed(alloc: Global, info: &mut ModuleInfo) -> Result<Left, AllocError> {
    let mut refused = false;
    for place in 0..20usize {
        match push_function(alloc, info, place)? {
            Some(was_refused) => refused = refused || was_refused,
            None => return Ok(Left::Changed),
        }
        refused = push_entry_point(alloc, info, place)? || refused;
    }
    Ok(came_of(refused, has_functions(info, 20)))
}

// The same for a new one.
fn of_infos(alloc: Global) -> Result<Left, AllocError> {
    let mut info = ModuleInfo::new(alloc);
    freeing(pushed(alloc, &mut info), info)
}

// Whether building a module of its own fails.
fn is_build_refused(alloc: Global, document: &Document) -> bool {
    let built = build_module(alloc, document);
    freeing(built.is_err(), built)
}

// Whether a module of its own equals the document's.
fn is_built(alloc: Global, document: &Document) -> Result<bool, AllocError> {
    let again = build_module(alloc, document)?;
    Ok(freeing(again == document.module, again))
}

// What `build_module` leaves of the document.
fn of_module(alloc: Global, document: &Document, copy: &Document) -> Result<Left, AllocError> {
    let refused = is_build_refused(alloc, document);
    let again = is_built(alloc, document)?;
    Ok(came_of(refused, again && copy.module == document.module))
}

// What `ensure_block_returns` leaves of the module, in which they are inserted.
fn of_returns(
    alloc: Global,
    document: &mut Document,
    copy: &mut Document,
) -> Result<Left, AllocError> {
    let module = &mut document.module;
    let refused = module.ensure_block_returns(alloc).is_err();
    let kept = !refused || copy.module == *module;
    module.ensure_block_returns(alloc)?;
    copy.module.ensure_block_returns(alloc)?;
    Ok(came_of(refused, kept && copy.module == *module))
}

// What a call leaves of the document, compared with this copy.
fn came_of_question(
    alloc: Global,
    question: &str,
    document: &mut Document,
    copy: &mut Document,
) -> Result<Left, AllocError> {
    match question {
        "left of layouts" => of_layouts(alloc, document),
        "left of functions" => of_infos(alloc),
        "left of a copy" => of_module(alloc, document, copy),
        _ => of_returns(alloc, document, copy),
    }
}

// What it leaves, in a word.
fn left_in_words(
    alloc: Global,
    question: &str,
    document: &mut Document,
    copy: &mut Document,
) -> Result<String, AllocError> {
    let came = came_of_question(alloc, question, document, copy)?;
    told(alloc, came)
}

/// What a call leaves after its allocation failed.
pub fn left_told(
    alloc: Global,
    question: &str,
    document: &mut Document,
) -> Result<String, AllocError> {
    let mut copy = document.clone(alloc)?;
    freeing(left_in_words(alloc, question, document, &mut copy), copy)
}
