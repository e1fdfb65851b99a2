//! Laws of every valid module, from the definitions alone: its call chains are finite, its bindings are distinct
//! ([`accepted_laws`]); every run of its entry points is safe, and the report lists what it references and samples
//! ([`run_laws`]); and if none of its functions has a result, inserting missing returns makes no difference
//! ([`return_laws`]). Examples of the definitions, computed by hand and by the prover:
//! [`rule_examples`], [`statement_examples`], [`run_examples`].
//!
//! The functions do nothing: their contracts are the laws and the examples.
#![tactic(auto)]

pub mod accepted_laws;
pub mod return_laws;
pub mod rule_examples;
pub mod run_examples;
pub mod run_laws;
pub mod statement_examples;
