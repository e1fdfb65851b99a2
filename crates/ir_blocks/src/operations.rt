// The functions of some statements: atomic operations, ray queries, subgroup gathers.
use ir_types::ir_arena::handle::Handle;
use ir_types::ir_kinds::Direction;
use ir_types::key;

/// The function of an atomic operation (naga's `AtomicFunction`).
#[derive(Clone, Copy, PartialEq, Debug)]
pub enum AtomicFunction {
    /// Addition.
    Add,
    /// Subtraction.
    Subtract,
    /// Bitwise and.
    And,
    /// Bitwise exclusive or.
    ExclusiveOr,
    /// Bitwise inclusive or.
    InclusiveOr,
    /// The minimum.
    Min,
    /// The maximum.
    Max,
    /// An exchange.
    Exchange {
        /// The comparand of a compare-exchange; a plain exchange if `None`.
        compare: Option<Handle<key::Expression>>,
    },
}

/// The mode of a subgroup gather: the lane whose value is read (naga's `GatherMode`).
#[derive(Clone, Copy, PartialEq, Debug)]
pub enum GatherMode {
    /// The first active lane (`broadcastFirst`).
    BroadcastFirst,
    /// The lane of a uniform index (`broadcast`).
    Broadcast(Handle<key::Expression>),
    /// The lane of this index (`shuffle`).
    Shuffle(Handle<key::Expression>),
    /// The lane that many invocations higher (`shuffleDown`).
    ShuffleDown(Handle<key::Expression>),
    /// The lane that many invocations lower (`shuffleUp`).
    ShuffleUp(Handle<key::Expression>),
    /// The lane whose index differs by this mask (`shuffleXor`).
    ShuffleXor(Handle<key::Expression>),
    /// The lane of this index within the quad (`quadBroadcast`).
    QuadBroadcast(Handle<key::Expression>),
    /// The other lane of the quad in this direction (`quadSwap`).
    QuadSwap(Direction),
}

/// The function of a ray query statement (naga's `RayQueryFunction`).
#[derive(Clone, Copy, PartialEq, Debug)]
pub enum RayQueryFunction {
    /// Initialises the query.
    Initialize {
        /// The acceleration structure.
        acceleration_structure: Handle<key::Expression>,
        /// The ray descriptor.
        descriptor: Handle<key::Expression>,
    },
    /// Proceeds to the next candidate.
    Proceed {
        /// The `RayQueryProceedResult`: whether there is a candidate.
        result: Handle<key::Expression>,
    },
    /// Generates an intersection.
    GenerateIntersection {
        /// The ray parameter of the hit.
        hit_t: Handle<key::Expression>,
    },
    /// Confirms the candidate intersection.
    ConfirmIntersection,
    /// Terminates the query.
    Terminate,
}

/// The function of a ray tracing pipeline statement (naga's `RayPipelineFunction`).
#[derive(Clone, Copy, PartialEq, Debug)]
pub enum RayPipelineFunction {
    /// Traces a ray.
    TraceRay {
        /// The acceleration structure.
        acceleration_structure: Handle<key::Expression>,
        /// The ray descriptor.
        descriptor: Handle<key::Expression>,
        /// A pointer to the ray payload.
        payload: Handle<key::Expression>,
    },
}
