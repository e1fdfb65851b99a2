// What is known of a module while its functions are built.

use crate::declarations::Declared;
use spirv_flow::Flow;
use spirv_tables::Demands;
use spirv_types::Reading;

/// What is known of a module while its functions are built, independent of where it is stored.
pub trait Knowledge {
    /// The module.
    fn reading(&self) -> &Reading;

    /// The control flow of its functions.
    fn flow(&self) -> &Flow;

    /// What is known of its declarations.
    fn declared(&self) -> &Declared;

    /// The capabilities and operations that it requires.
    fn demands(&mut self) -> &mut Demands;
}

/// What is known of a module.
#[derive(Drop)]
pub struct ReadModule {
    /// The module.
    pub reading: Reading,
    /// The control flow of its functions.
    pub flow: Flow,
    /// Its declarations.
    pub declared: Declared,
}

impl Knowledge for ReadModule {
    fn reading(&self) -> &Reading {
        &self.reading
    }

    fn flow(&self) -> &Flow {
        &self.flow
    }

    fn declared(&self) -> &Declared {
        &self.declared
    }

    fn demands(&mut self) -> &mut Demands {
        &mut self.declared.demands
    }
}
