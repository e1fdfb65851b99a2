// Laws of emitters.
ghost use Rattle.ir_items.specs.found.Emitted.{Partition};

/// On expressions that are only appended, the ranges that an emitter returns are disjoint and not empty, and contain exactly the
/// expressions appended while it was running.
#[tactic(auto, using(crate::proofs::Runs::partition))]
pub fn ranges_partition()
    ensures { Partition }
{}
