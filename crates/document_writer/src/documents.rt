// Writes a whole document.

use crate::writer::Writer;
use document_reader::Document;
use ir_arena::handle::Handle;
use ir_flags::Settings;
use ir_items::{
    Constant, DiagnosticFilterNode, FilterableTriggeringRule, GlobalVariable, Module, Override,
    SpecialTypes,
};
use ir_kinds::PredeclaredType;
use ir_types::key;
use std::alloc::{AllocError, Global};

const VERSION: u64 = 1;

/// Writes the document as JSON arrays, without spans. The error is out of memory.
pub fn write_document(alloc: Global, document: &Document) -> Result<String, AllocError> {
    let mut writer = Writer::new(alloc);
    writer.open();
    writer.number(VERSION);
    writer.settings(document.settings);
    writer.truth(document.returns);
    writer.declarations(&document.module);
    writer.items(&document.module);
    writer.close();
    writer.finish()
}

impl Writer {
    fn settings(&mut self, settings: Settings) {
        self.set_of(settings.flags);
        self.set_of(settings.capabilities);
        self.open();
        self.set_of(settings.subgroup_stages);
        self.set_of(settings.subgroup_operations);
        self.close();
    }

    // Writes types and filters.
    fn declarations(&mut self, module: &Module) {
        self.open();
        for (_, ty) in module.types.iter() {
            self.ir_type(ty);
        }
        self.close();
        self.special(&module.special_types);
        self.open();
        self.open();
        for (_, node) in module.diagnostic_filters.iter() {
            self.filter(node);
        }
        self.close();
        self.leaf(module.diagnostic_filter_leaf);
        self.close();
    }

    fn filter(&mut self, node: &DiagnosticFilterNode) {
        self.open();
        self.word_of(node.inner.new_severity);
        self.open();
        match &node.inner.triggering_rule {
            FilterableTriggeringRule::Standard(rule) => {
                self.word("Standard");
                self.word_of(*rule);
            }
            FilterableTriggeringRule::Unknown(name) => {
                self.word("Unknown");
                self.text(name);
            }
            FilterableTriggeringRule::User(tool, name) => {
                self.word("User");
                self.text(tool);
                self.text(name);
            }
        }
        self.close();
        self.leaf(node.parent);
        self.close();
    }

    /// Writes the handle of a filter, or `null`.
    pub fn leaf(&mut self, leaf: Option<Handle<key::DiagnosticFilterNode>>) {
        match leaf {
            Some(handle) => self.handle(handle),
            None => self.null(),
        }
    }

    fn special(&mut self, special: &SpecialTypes) {
        self.open();
        for handle in [
            special.ray_desc,
            special.ray_intersection,
            special.ray_vertex_return,
        ] {
            match handle {
                Some(handle) => self.handle(handle),
                None => self.null(),
            }
        }
        self.open();
        for (of, handle) in special.predeclared_types.iter() {
            self.open();
            self.predeclared(*of);
            self.handle(*handle);
            self.close();
        }
        self.close();
        self.close();
    }

    fn predeclared(&mut self, of: PredeclaredType) {
        match of {
            PredeclaredType::AtomicCompareExchangeWeakResult(scalar) => {
                self.begin("AtomicCompareExchangeWeakResult");
                self.word_of(scalar);
            }
            PredeclaredType::ModfResult { size, scalar } => {
                self.begin("ModfResult");
                self.optional_size(size);
                self.word_of(scalar);
            }
            PredeclaredType::FrexpResult { size, scalar } => {
                self.begin("FrexpResult");
                self.optional_size(size);
                self.word_of(scalar);
            }
        }
        self.close();
    }

    // Writes all other lists.
    fn items(&mut self, module: &Module) {
        self.open();
        for (_, constant) in module.constants.iter() {
            self.constant(constant);
        }
        self.close();
        self.open();
        for (_, item) in module.overrides.iter() {
            self.overridden(item);
        }
        self.close();
        self.open();
        for (_, expression) in module.global_expressions.iter() {
            self.expression(expression);
        }
        self.close();
        self.open();
        for (_, variable) in module.global_variables.iter() {
            self.variable(variable);
        }
        self.close();
        self.code(module);
    }

    // Writes functions and entry points.
    fn code(&mut self, module: &Module) {
        self.open();
        for (_, function) in module.functions.iter() {
            self.function(function);
        }
        self.close();
        self.open();
        for entry in &module.entry_points {
            self.entry(entry);
        }
        self.close();
    }

    fn constant(&mut self, constant: &Constant) {
        self.open();
        self.name(constant.name.as_deref());
        self.handle(constant.ty);
        self.handle(constant.init);
        self.close();
    }

    fn overridden(&mut self, item: &Override) {
        self.open();
        self.name(item.name.as_deref());
        self.optional(item.id.map(u32::from));
        self.handle(item.ty);
        self.maybe(item.init);
        self.close();
    }

    fn variable(&mut self, variable: &GlobalVariable) {
        self.open();
        self.name(variable.name.as_deref());
        self.space(variable.space);
        match variable.binding {
            Some(binding) => {
                self.open();
                self.number(u64::from(binding.group));
                self.number(u64::from(binding.binding));
                self.close();
            }
            None => self.null(),
        }
        self.handle(variable.ty);
        self.maybe(variable.init);
        self.set_of(variable.memory_decorations);
        self.close();
    }
}
