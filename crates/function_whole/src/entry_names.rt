//! The names of entry points, each with its stage.

ghost use Rattle.std.specs.Prelude.{◌≡◌, ◌⊎◌, ◌↔◌, ℕ, IfOk, IsTrue, List, OnErr, OnOk, if◌then◌else◌, not, string_bytes, true};
ghost use Rattle.std.specs.BTreeSet.{contains_text};
ghost use Rattle.std.specs.Str.{bytes_eq};
ghost use Rattle.function_whole.specs.EntryNames.{IsSeen, key_of, stage_letter};
ghost use Rattle.ir_items.specs.found.View.{entry_view};
ghost use Rattle.ir_kinds.specs.declared.stages.ShaderStage.{ShaderStage};

use ir_items::EntryPoint;
use ir_kinds::ShaderStage;
use std::alloc::{AllocError, Global};
use std::collections::BTreeSet;

/// The names of the entry points so far, each with its stage. It grows by a string for each.
#[derive(Drop)]
pub struct SeenNames {
    keys: BTreeSet<String>,
}

// A letter for each stage.
fn stage_letter(stage: ShaderStage) -> &'static str
    ensures { result.now ≡ stage_letter stage }
{
    match stage {
        ShaderStage::Vertex => "v",
        ShaderStage::Fragment => "f",
        ShaderStage::Compute => "c",
        ShaderStage::Mesh => "m",
        ShaderStage::Task => "t",
        ShaderStage::RayGeneration => "r",
        ShaderStage::AnyHit => "a",
        ShaderStage::ClosestHit => "h",
        ShaderStage::Miss => "s",
    }
}

// The string of an entry point's stage and name.
fn key_of(alloc: Global, entry: &EntryPoint) -> Result<String, AllocError>
    ensures { IfOk result (λ key. string_bytes key ≡ key_of (entry_view entry.now).stage (entry_view entry.now).name) }
{
    let mut key = String::from_str(alloc, stage_letter(entry.stage))?;
    key.push_str(entry.name.as_str())?;
    Ok(key)
}

// Notes a string, and returns whether it is new.
fn note_key(keys: &mut BTreeSet<String>, key: String) -> Result<bool, AllocError>
    ensures fresh { IfOk result (λ fresh. fresh ≡ not (contains_text keys.old (string_bytes key))) }
    ensures noted { OnOk result ((bs : List ℕ) → contains_text keys.new bs ≡ (if bytes_eq (string_bytes key) bs then true else contains_text keys.old bs)) }
    ensures err { OnErr result (keys.new ≡ keys.old) }
{
    match keys.insert(key) {
        Ok(fresh) => return Ok(fresh),
        Err(_) => {}
    }
    Err(AllocError)
}

impl SeenNames {
    /// Empty. It allocates nothing.
    pub fn new(alloc: Global) -> SeenNames
        ensures { (stage : ShaderStage) (name : List ℕ) → ¬ IsSeen result stage name }
    {
        SeenNames {
            keys: BTreeSet::new(alloc),
        }
    }

    /// Notes an entry point, and returns whether none before has its stage and name. The error is out of memory; nothing has
    /// changed then.
    pub fn note(&mut self, alloc: Global, entry: &EntryPoint) -> Result<bool, AllocError>
        ensures fresh { IfOk result (λ fresh. IsTrue fresh ↔ ¬ IsSeen self.old (entry_view entry.now).stage (entry_view entry.now).name) }
        ensures noted { OnOk result ((stage : ShaderStage) (name : List ℕ) → IsSeen self.new stage name
            ↔ (IsSeen self.old stage name ⊎ (((entry_view entry.now).stage ≡ stage) × ((entry_view entry.now).name ≡ name)))) }
        ensures err { OnErr result (self.new ≡ self.old) }
    {
        let key = key_of(alloc, entry)?;
        note_key(&mut self.keys, key)
    }
}
