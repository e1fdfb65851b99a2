// What of a module is not translated.

use crate::unsupported::After::{Name, Nothing, Number};
use spirv_numbers::names::Names;
use std::fmt::{self, Display};

/// Something that a module says and the IR can't say, or that is not translated.
#[derive(Clone, Copy)]
pub enum Feature {
    /// More expressions, types, members, atomic parts or names than so many words may make.
    TooMuch,
    /// Composites of specialization constants more than 32 deep.
    DeepComposite,
    /// A value out of its scope.
    ValueOutOfScope,
    /// A combined image sampler as a value.
    PairAsValue,
    /// An image that is sampled without a sampler.
    NoSampler,
    /// A pointer out of its scope.
    PointerOutOfScope,
    /// A pointer of more than 255 steps.
    LongPointer,
    /// OpAccessChain with a member that is no constant.
    DynamicMember,
    /// OpLoad of an array of row-major matrices.
    LoadOfRowMajor,
    /// OpStore into a column of a row-major matrix.
    StoreIntoColumn,
    /// OpStore of row-major matrices.
    StoreOfRowMajor,
    /// OpTypeArray with a length that is no number.
    ArrayLength,
    /// A uniform outside of a block.
    LooseUniform,
    /// Sampled with and without a comparison.
    MixedComparison,
    /// An array of arrays of buffers.
    BufferArrays,
    /// An input or output that is not bound.
    UnboundVarying,
    /// An initializer of a block between stages.
    BlockInitializer,
    /// A block between stages without locations.
    BlockWithoutLocations,
    /// No entry point.
    NoEntryPoint,
    /// A size of workgroups that is no number.
    WorkgroupSize,
    /// OpCopyLogical of types more than 16 deep.
    DeepCopy,
    /// OpCompositeExtract of an array of row-major matrices.
    ExtractOfRowMajor,
    /// A struct with row-major matrices composed.
    RowMajorStruct,
    /// OpCompositeInsert into more than 1024 parts.
    LargeInsert,
    /// Recursion.
    Recursion,
    /// More than 255 atomic parts of one value.
    AtomicParts,
    /// An atomic through an argument.
    AtomicArgument,
    /// Control flow.
    ControlFlow,
    /// A pointer to an image as an argument.
    ImagePointerArgument,
    /// An argument of an array of images.
    ImageArrayArgument,
    /// An extended instruction set.
    InstructionSet,
    /// OpImageGather of a component that is no constant.
    GatherComponent,
    /// Image operand Lod of an integer.
    IntegerLod,
    /// Image operand ConstOffsets.
    ConstOffsets,
    /// Image operand MinLod.
    MinLod,
    /// Image operand Offset.
    Offset,
    /// A texel of a cube array by its coordinates.
    CubeArrayTexel,
    /// Such an atomic on an image.
    ImageAtomic,
    /// OpImageWrite with operands.
    ImageWriteOperands,
    /// A pointer to row-major matrices as an argument.
    RowMajorArgument,
    /// A barrier with what is no constant.
    BarrierOperand,
    /// OpControlBarrier with another scope.
    BarrierScope,
    /// An operation of another scope than a subgroup.
    GroupScope,
    /// An operation of a part of a subgroup.
    PartOfSubgroup,
    /// OpGroupNonUniformQuadSwap in no direction.
    QuadSwapDirection,
    /// OpStore of a combined image sampler.
    StoreOfPair,
    /// Control flow: a case that falls to one that is not next.
    FallsToOther,
    /// A function without a body.
    NoBody,
    /// Control flow: a branch out of two selections.
    BranchOutOfTwo,
    /// Control flow: a break in a continuing part.
    BreakInContinuing,
    /// Control flow: a break out of an outer loop or switch.
    OuterBreak,
    /// Control flow: a continue of an outer loop.
    OuterContinue,
    /// Control flow: a branch to an outer loop's header.
    OuterHeader,
    /// Control flow nested more than 60 deep.
    DeepControlFlow,
    /// Control flow: a block that is reached twice.
    BlockReachedTwice,
    /// Control flow: a merge at a branch.
    MergeAtBranch,
    /// Control flow: a switch without a merge.
    SwitchWithoutMerge,
    /// OpSwitch on what is no integer of 16, 32 or 64 bits.
    SwitchSelector,
    /// OpTypeImage of what is no number.
    ImageOfNoNumber,
    /// An array of arrays of resources.
    ResourceArrays,
    /// OpTypeImage for storage, multisampled.
    MultisampledStorage,
    /// OpTypeImage of what has not 32 bits.
    ImageWidth,
    /// OpTypeStruct too large.
    LargeStruct,
    /// OpTypeStruct with a member of an image or a sampler.
    HandleMember,
    /// RowMajor of what is no matrix.
    RowMajorOfNoMatrix,
    /// An atomic more than 255 steps inside.
    DeepAtomic,
    /// An atomic of what is no number.
    AtomicOfNoNumber,
    /// A ray query that is no variable of one function.
    RayQueryVariable,
    /// An id above sixteen times the count of words.
    LargeId,
    /// More than sixteen decorations for each word, by groups.
    LargeGroups,
    /// More than 32 decorations of one id or member, or execution modes of one function.
    ManyDecorations,
    /// More than one mesh stage.
    MeshStages,
    /// A mesh stage that says no topology, or not how much it gives at most.
    MeshCounts,
    /// An output of a mesh stage that is no array, or that begins as something.
    MeshArray,
    /// An output of a mesh stage and of another stage.
    MeshShared,
    /// A whole output of a mesh stage.
    MeshWhole,
    /// OpEmitMeshTasksEXT in a function that is called.
    EmitInCallee,
    /// OpTraceRayKHR with an offset, a stride or a miss index that is not the constant 0.
    ShaderBindingTable,
    /// References to buffers (`PhysicalStorageBuffer`).
    BufferReference,
}

// What they are in words, in the order of the variants.
static TEXTS: [&str; 79] = [
    "more expressions, types, members, atomic parts or names than so many words may make",
    "composites of specialization constants more than 32 deep",
    "a value out of its scope",
    "a combined image sampler as a value",
    "an image that is sampled without a sampler",
    "a pointer out of its scope",
    "a pointer of more than 255 steps",
    "OpAccessChain with a member that is no constant",
    "OpLoad of an array of row-major matrices",
    "OpStore into a column of a row-major matrix",
    "OpStore of row-major matrices",
    "OpTypeArray with a length that is no number",
    "a uniform outside of a block",
    "sampled with and without a comparison",
    "an array of arrays of buffers",
    "an input or output that is not bound",
    "an initializer of a block between stages",
    "a block between stages without locations",
    "no entry point",
    "a size of workgroups that is no number",
    "OpCopyLogical of types more than 16 deep",
    "OpCompositeExtract of an array of row-major matrices",
    "a struct with row-major matrices put together",
    "OpCompositeInsert into more than 1024 parts",
    "recursion",
    "more than 255 atomic parts of one value",
    "an atomic through an argument",
    "control flow",
    "a pointer to an image as an argument",
    "an argument of an array of images",
    "an extended instruction set",
    "OpImageGather of a component that is no constant",
    "image operand Lod of an integer",
    "image operand ConstOffsets",
    "image operand MinLod",
    "image operand Offset",
    "a texel of a cube array by its coordinates",
    "such an atomic on an image",
    "OpImageWrite with operands",
    "a pointer to row-major matrices as an argument",
    "a barrier with what is no constant",
    "OpControlBarrier with another scope",
    "an operation of another scope than a subgroup",
    "an operation of a part of a subgroup",
    "OpGroupNonUniformQuadSwap in no direction",
    "OpStore of a combined image sampler",
    "control flow: a case that falls to one that is not next",
    "a function without a body",
    "control flow: a branch out of two selections",
    "control flow: a break in a continuing part",
    "control flow: a break out of an outer loop or switch",
    "control flow: a continue of an outer loop",
    "control flow: a branch to an outer loop's header",
    "control flow nested more than 60 deep",
    "control flow: a block that is reached twice",
    "control flow: a merge at a branch",
    "control flow: a switch without a merge",
    "OpSwitch on what is no integer of 16, 32 or 64 bits",
    "OpTypeImage of what is no number",
    "an array of arrays of resources",
    "OpTypeImage for storage, multisampled",
    "OpTypeImage of what has not 32 bits",
    "OpTypeStruct too large",
    "OpTypeStruct with a member of an image or a sampler",
    "RowMajor of what is no matrix",
    "an atomic more than 255 steps inside",
    "an atomic of what is no number",
    "a ray query that is no variable of one function",
    "an id above sixteen times the count of words",
    "more than sixteen decorations for each word, by groups",
    "more than 32 decorations of one id or member, or execution modes of one function",
    "more than one mesh stage",
    "a mesh stage that says no topology, or not how much it gives at most",
    "an output of a mesh stage that is no array, or that begins as something",
    "an output of a mesh stage and of another stage",
    "a whole output of a mesh stage",
    "OpEmitMeshTasksEXT in a function that is called",
    "OpTraceRayKHR with an offset, a stride or a miss index that is not the constant 0",
    "references to buffers",
];

impl Feature {
    /// The same in words.
    pub fn text(self) -> &'static str {
        TEXTS.get(self as usize).copied().unwrap_or("")
    }
}

/// What the IR can't say, or what is not translated.
#[derive(Clone, Copy)]
pub enum Unsupported {
    /// An instruction, by its opcode.
    Instruction(u16),
    /// The value of an instruction with this opcode.
    ValueOf(u16),
    /// An access chain into a type that an instruction with this opcode declares.
    ChainInto(u16),
    /// An operation on specialization constants, by its opcode.
    SpecOperation(u16),
    /// A decoration, by its number.
    Decoration(u32),
    /// A storage class, by its number.
    StorageClass(u32),
    /// A built-in, by its number.
    BuiltIn(u32),
    /// A stage, by the number of its execution model.
    Stage(u32),
    /// A dimension of images, by its number.
    Dimension(u32),
    /// A format of images, by its number.
    Format(u32),
    /// A specialization constant with this id.
    SpecId(u32),
    /// A function of GLSL.std.450, by its number.
    MathFunction(u32),
    /// A vector of so many components.
    VectorSize(u32),
    /// An integer of so many bits.
    IntWidth(u32),
    /// A float of so many bits.
    FloatWidth(u32),
    /// So many bytes from column to column of a matrix.
    MatrixStride(u32),
    /// Something else.
    Feature(Feature),
}

// What stands after what it is.
#[derive(Clone, Copy)]
enum After {
    Nothing,
    Number,
    Name(Names),
}

impl Unsupported {
    // What it is in words, and what stands after these with which number.
    fn described(self) -> (&'static str, After, u32) {
        match self {
            Unsupported::Instruction(opcode) => ("Op", Name(Names::Opcode), opcode as u32),
            Unsupported::ValueOf(opcode) => ("a value of ", Name(Names::Opcode), opcode as u32),
            Unsupported::ChainInto(opcode) => {
                ("an access chain into ", Name(Names::Opcode), opcode as u32)
            }
            Unsupported::SpecOperation(opcode) => {
                ("OpSpecConstantOp ", Name(Names::Opcode), opcode as u32)
            }
            Unsupported::Decoration(number) => ("decoration ", Name(Names::Decoration), number),
            Unsupported::StorageClass(number) => (
                "storage class ",
                Name(Names::StorageClass),
                number,
            ),
            Unsupported::BuiltIn(number) => ("built-in ", Name(Names::BuiltIn), number),
            Unsupported::Stage(number) => ("stage ", Name(Names::Model), number),
            Unsupported::Dimension(number) => (
                "OpTypeImage dimension ",
                Name(Names::Dimension),
                number,
            ),
            Unsupported::Format(number) => ("OpTypeImage format ", Name(Names::Format), number),
            Unsupported::SpecId(number) => ("SpecId ", Number, number),
            Unsupported::MathFunction(number) => (
                "GLSL.std.450 ",
                Name(Names::MathFunction),
                number,
            ),
            Unsupported::VectorSize(number) => ("OpTypeVector ", Number, number),
            Unsupported::IntWidth(number) => ("OpTypeInt ", Number, number),
            Unsupported::FloatWidth(number) => ("OpTypeFloat ", Number, number),
            Unsupported::MatrixStride(number) => ("MatrixStride ", Number, number),
            Unsupported::Feature(feature) => (feature.text(), Nothing, 0),
        }
    }
}

impl Display for Unsupported {
    fn fmt<W: fmt::Write>(&self, f: &mut fmt::Formatter<W>) -> fmt::Result {
        let (what, after, number) = self.described();
        let name = match after {
            Nothing => return f.write_str(what),
            Number => return write!(f, "{what}{number}"),
            Name(names) => names.name(number),
        };
        if name.is_empty() {
            f.write_str(what.trim_ascii_end())
        } else {
            write!(f, "{what}{name}")
        }
    }
}
