//! The check of each statement of a body, at any depth: switches, subgroup statements (ballots, collective operations and
//! gathers) and ray statements (ray queries, and rays traced by a pipeline, with their payload types). The rules of other kinds
//! are in `function_statement_checks` and `function_atomic_checks`.
#![tactic(auto)]

mod answers;
mod body;
mod error;
pub mod laws;
pub mod operation_laws;
mod payloads;
mod ray_pipelines;
mod ray_queries;
mod rays;
mod rules;
mod statement;
pub mod subgroup_laws;
mod subgroups;
pub mod switch_laws;
mod switches;

pub use answers::next_answers;
pub use body::validate_statements;
pub use payloads::payload_of;
pub use ray_pipelines::check_ray_pipeline;
pub use ray_queries::check_ray_query;
pub use subgroups::{check_ballot, check_collective, check_gather};
pub use switches::check_switch;
