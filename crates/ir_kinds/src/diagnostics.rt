//! Severities of diagnostics, and the standard rules that a filter may name.

/// The severity of a diagnostic (naga's `Severity`).
#[derive(Clone, Copy, PartialEq, Eq, Debug)]
pub enum Severity {
    /// Not reported.
    Off,
    /// An informational message.
    Info,
    /// A warning.
    Warning,
    /// An error.
    Error,
}

/// A standard triggering rule of WGSL's diagnostics, which a filter may name (naga's `StandardFilterableTriggeringRule`).
#[derive(Clone, Copy, PartialEq, Eq, Debug)]
pub enum StandardFilterableTriggeringRule {
    /// A derivative that is not in uniform control flow.
    DerivativeUniformity,
}
