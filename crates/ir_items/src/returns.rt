// Missing returns in the bodies of a module.
ghost use Rattle.std.specs.Prelude.{◌≡◌, map, OnOk, OnErr};
ghost use Rattle.ir_blocks.specs.IrArena.{entry_of};
ghost use Rattle.ir_items.specs.found.Copies.{spanned_function, spanned_entry, spanned_module};
ghost use Rattle.ir_items.specs.judged.Returned.{IsReturned, KeepsModuleSpans, returned_module, returned_module_spans, returned_function_spans, returned_entry_spans, FunctionHasRoom, EntryHasRoom, FunctionsHaveRoom, EntriesHaveRoom};
ghost use Rattle.ir_items.specs.found.View.{module_view};

use crate::entries::EntryPoint;
use crate::functions::Function;
use crate::module::Module;
use ir_blocks::ir_arena::arena::Arena;
use ir_blocks::ir_arena::handle::Handle;
use ir_blocks::ir_types::key;
use ir_blocks::{put_returns, reserve_returns};
use std::alloc::{AllocError, Global};

impl Module {
    /// Adds the missing returns to the body of each function and of each entry point, as
    /// [`ir_blocks::ensure_block_returns`] does for one body. The error is out of memory, and leaves the
    /// module unchanged, spans too, because room is reserved in every body before the first return is added.
    pub fn ensure_block_returns(&mut self, _alloc: Global) -> Result<(), AllocError>
        ensures ok { OnOk result (IsReturned (module_view self.old) (module_view self.new)) }
        ensures spans { OnOk result (KeepsModuleSpans (spanned_module self.old) (spanned_module self.new)) }
        ensures found { OnOk result (module_view self.new ≡ returned_module (module_view self.old)) }
        ensures found_spans { OnOk result (spanned_module self.new ≡ returned_module_spans (spanned_module self.old)) }
        ensures err { OnErr result (spanned_module self.new ≡ spanned_module self.old) }
    {
        reserve_in_functions(&mut self.functions)?;
        reserve_in_entries(&mut self.entry_points)?;
        put_into_functions(&mut self.functions);
        put_into_entries(&mut self.entry_points);
        Ok(())
    }
}

impl Function {
    // Reserves room for the missing returns of its body.
    fn reserve_returns(&mut self) -> Result<(), AllocError>
        ensures same { spanned_function self.new ≡ spanned_function self.old }
        ensures room { OnOk result (FunctionHasRoom self.new) }
    {
        reserve_returns(&mut self.body)
    }

    // Adds the missing returns of its body, for which room is reserved.
    fn put_returns(&mut self)
        requires { FunctionHasRoom self.old }
        ensures { spanned_function self.new ≡ returned_function_spans (spanned_function self.old) }
    {
        put_returns(&mut self.body);
    }
}

impl EntryPoint {
    // Reserves room for the missing returns of its function's body.
    fn reserve_returns(&mut self) -> Result<(), AllocError>
        ensures same { spanned_entry self.new ≡ spanned_entry self.old }
        ensures room { OnOk result (EntryHasRoom self.new) }
    {
        self.function.reserve_returns()
    }

    // Adds the missing returns of its function's body, for which room is reserved.
    fn put_returns(&mut self)
        requires { EntryHasRoom self.old }
        ensures { spanned_entry self.new ≡ returned_entry_spans (spanned_entry self.old) }
    {
        self.function.put_returns();
    }
}

// Reserves room in each function.
fn reserve_in_functions(functions: &mut Arena<Function, key::Function>) -> Result<(), AllocError>
    ensures same { map (entry_of spanned_function) functions.new ≡ map (entry_of spanned_function) functions.old }
    ensures room { OnOk result (FunctionsHaveRoom functions.new) }
{
    for place in 0..functions.len() {
        functions.get_mut(Handle::at(place)).reserve_returns()?;
    }
    Ok(())
}

// Reserves room in each entry point.
fn reserve_in_entries(entries: &mut Vec<EntryPoint>) -> Result<(), AllocError>
    ensures same { map spanned_entry entries.new.items ≡ map spanned_entry entries.old.items }
    ensures room { OnOk result (EntriesHaveRoom entries.new.items) }
{
    for place in 0..entries.len() {
        entries[place].reserve_returns()?;
    }
    Ok(())
}

// Adds the returns to each function.
fn put_into_functions(functions: &mut Arena<Function, key::Function>)
    requires { FunctionsHaveRoom functions.old }
    ensures { map (entry_of spanned_function) functions.new ≡ map (entry_of returned_function_spans) (map (entry_of spanned_function) functions.old) }
{
    for place in 0..functions.len() {
        functions.get_mut(Handle::at(place)).put_returns();
    }
}

// Adds the returns to each entry point.
fn put_into_entries(entries: &mut Vec<EntryPoint>)
    requires { EntriesHaveRoom entries.old.items }
    ensures { map spanned_entry entries.new.items ≡ map returned_entry_spans (map spanned_entry entries.old.items) }
{
    for place in 0..entries.len() {
        entries[place].put_returns();
    }
}
