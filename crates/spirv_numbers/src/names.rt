//! The names of numbers, for the texts of errors.

// The name after a number in a text of numbers and names; empty where it has none.
fn name_in(names: &'static str, number: u32) -> &'static str {
    let mut found = false;
    for word in names.split_ascii_whitespace() {
        if found {
            return word;
        }
        found = match word.parse::<u32>() {
            Ok(each) => each == number,
            Err(_) => false,
        };
    }
    ""
}

// The opcodes (section 3.52), without `Op`: those of the core, and then those of extensions.
const OPCODES: &str = "\
    0 Nop 1 Undef 2 SourceContinued 3 Source 4 SourceExtension 5 Name 6 MemberName 7 String 8 Line 10 Extension \
    11 ExtInstImport 12 ExtInst 14 MemoryModel 15 EntryPoint 16 ExecutionMode 17 Capability 19 TypeVoid \
    20 TypeBool 21 TypeInt 22 TypeFloat 23 TypeVector 24 TypeMatrix 25 TypeImage 26 TypeSampler \
    27 TypeSampledImage 28 TypeArray 29 TypeRuntimeArray 30 TypeStruct 31 TypeOpaque 32 TypePointer \
    33 TypeFunction 34 TypeEvent 35 TypeDeviceEvent 36 TypeReserveId 37 TypeQueue 38 TypePipe \
    39 TypeForwardPointer 41 ConstantTrue 42 ConstantFalse 43 Constant 44 ConstantComposite 45 ConstantSampler \
    46 ConstantNull 48 SpecConstantTrue 49 SpecConstantFalse 50 SpecConstant 51 SpecConstantComposite \
    52 SpecConstantOp 54 Function 55 FunctionParameter 56 FunctionEnd 57 FunctionCall 59 Variable \
    60 ImageTexelPointer 61 Load 62 Store 63 CopyMemory 64 CopyMemorySized 65 AccessChain 66 InBoundsAccessChain \
    67 PtrAccessChain 68 ArrayLength 69 GenericPtrMemSemantics 70 InBoundsPtrAccessChain 71 Decorate \
    72 MemberDecorate 73 DecorationGroup 74 GroupDecorate 75 GroupMemberDecorate 77 VectorExtractDynamic \
    78 VectorInsertDynamic 79 VectorShuffle 80 CompositeConstruct 81 CompositeExtract 82 CompositeInsert \
    83 CopyObject 84 Transpose 86 SampledImage 87 ImageSampleImplicitLod 88 ImageSampleExplicitLod \
    89 ImageSampleDrefImplicitLod 90 ImageSampleDrefExplicitLod 91 ImageSampleProjImplicitLod \
    92 ImageSampleProjExplicitLod 93 ImageSampleProjDrefImplicitLod 94 ImageSampleProjDrefExplicitLod \
    95 ImageFetch 96 ImageGather 97 ImageDrefGather 98 ImageRead 99 ImageWrite 100 Image 101 ImageQueryFormat \
    102 ImageQueryOrder 103 ImageQuerySizeLod 104 ImageQuerySize 105 ImageQueryLod 106 ImageQueryLevels \
    107 ImageQuerySamples 109 ConvertFToU 110 ConvertFToS 111 ConvertSToF 112 ConvertUToF 113 UConvert \
    114 SConvert 115 FConvert 116 QuantizeToF16 117 ConvertPtrToU 118 SatConvertSToU 119 SatConvertUToS \
    120 ConvertUToPtr 121 PtrCastToGeneric 122 GenericCastToPtr 123 GenericCastToPtrExplicit 124 Bitcast \
    126 SNegate 127 FNegate 128 IAdd 129 FAdd 130 ISub 131 FSub 132 IMul 133 FMul 134 UDiv 135 SDiv 136 FDiv \
    137 UMod 138 SRem 139 SMod 140 FRem 141 FMod 142 VectorTimesScalar 143 MatrixTimesScalar \
    144 VectorTimesMatrix 145 MatrixTimesVector 146 MatrixTimesMatrix 147 OuterProduct 148 Dot 149 IAddCarry \
    150 ISubBorrow 151 UMulExtended 152 SMulExtended 154 Any 155 All 156 IsNan 157 IsInf 158 IsFinite \
    159 IsNormal 160 SignBitSet 161 LessOrGreater 162 Ordered 163 Unordered 164 LogicalEqual 165 LogicalNotEqual \
    166 LogicalOr 167 LogicalAnd 168 LogicalNot 169 Select 170 IEqual 171 INotEqual 172 UGreaterThan \
    173 SGreaterThan 174 UGreaterThanEqual 175 SGreaterThanEqual 176 ULessThan 177 SLessThan 178 ULessThanEqual \
    179 SLessThanEqual 180 FOrdEqual 181 FUnordEqual 182 FOrdNotEqual 183 FUnordNotEqual 184 FOrdLessThan \
    185 FUnordLessThan 186 FOrdGreaterThan 187 FUnordGreaterThan 188 FOrdLessThanEqual 189 FUnordLessThanEqual \
    190 FOrdGreaterThanEqual 191 FUnordGreaterThanEqual 194 ShiftRightLogical 195 ShiftRightArithmetic \
    196 ShiftLeftLogical 197 BitwiseOr 198 BitwiseXor 199 BitwiseAnd 200 Not 201 BitFieldInsert \
    202 BitFieldSExtract 203 BitFieldUExtract 204 BitReverse 205 BitCount 207 DPdx 208 DPdy 209 Fwidth \
    210 DPdxFine 211 DPdyFine 212 FwidthFine 213 DPdxCoarse 214 DPdyCoarse 215 FwidthCoarse 218 EmitVertex \
    219 EndPrimitive 220 EmitStreamVertex 221 EndStreamPrimitive 224 ControlBarrier 225 MemoryBarrier \
    227 AtomicLoad 228 AtomicStore 229 AtomicExchange 230 AtomicCompareExchange 231 AtomicCompareExchangeWeak \
    232 AtomicIIncrement 233 AtomicIDecrement 234 AtomicIAdd 235 AtomicISub 236 AtomicSMin 237 AtomicUMin \
    238 AtomicSMax 239 AtomicUMax 240 AtomicAnd 241 AtomicOr 242 AtomicXor 245 Phi 246 LoopMerge \
    247 SelectionMerge 248 Label 249 Branch 250 BranchConditional 251 Switch 252 Kill 253 Return 254 ReturnValue \
    255 Unreachable 256 LifetimeStart 257 LifetimeStop 259 GroupAsyncCopy 260 GroupWaitEvents 261 GroupAll \
    262 GroupAny 263 GroupBroadcast 264 GroupIAdd 265 GroupFAdd 266 GroupFMin 267 GroupUMin 268 GroupSMin \
    269 GroupFMax 270 GroupUMax 271 GroupSMax 274 ReadPipe 275 WritePipe 276 ReservedReadPipe \
    277 ReservedWritePipe 278 ReserveReadPipePackets 279 ReserveWritePipePackets 280 CommitReadPipe \
    281 CommitWritePipe 282 IsValidReserveId 283 GetNumPipePackets 284 GetMaxPipePackets \
    285 GroupReserveReadPipePackets 286 GroupReserveWritePipePackets 287 GroupCommitReadPipe \
    288 GroupCommitWritePipe 291 EnqueueMarker 292 EnqueueKernel 293 GetKernelNDrangeSubGroupCount \
    294 GetKernelNDrangeMaxSubGroupSize 295 GetKernelWorkGroupSize 296 GetKernelPreferredWorkGroupSizeMultiple \
    297 RetainEvent 298 ReleaseEvent 299 CreateUserEvent 300 IsValidEvent 301 SetUserEventStatus \
    302 CaptureEventProfilingInfo 303 GetDefaultQueue 304 BuildNDRange 305 ImageSparseSampleImplicitLod \
    306 ImageSparseSampleExplicitLod 307 ImageSparseSampleDrefImplicitLod 308 ImageSparseSampleDrefExplicitLod \
    309 ImageSparseSampleProjImplicitLod 310 ImageSparseSampleProjExplicitLod \
    311 ImageSparseSampleProjDrefImplicitLod 312 ImageSparseSampleProjDrefExplicitLod 313 ImageSparseFetch \
    314 ImageSparseGather 315 ImageSparseDrefGather 316 ImageSparseTexelsResident 317 NoLine \
    318 AtomicFlagTestAndSet 319 AtomicFlagClear 320 ImageSparseRead 321 SizeOf 322 TypePipeStorage \
    323 ConstantPipeStorage 324 CreatePipeFromPipeStorage 325 GetKernelLocalSizeForSubgroupCount \
    326 GetKernelMaxNumSubgroups 327 TypeNamedBarrier 328 NamedBarrierInitialize 329 MemoryNamedBarrier \
    330 ModuleProcessed 331 ExecutionModeId 332 DecorateId 333 GroupNonUniformElect 334 GroupNonUniformAll \
    335 GroupNonUniformAny 336 GroupNonUniformAllEqual 337 GroupNonUniformBroadcast \
    338 GroupNonUniformBroadcastFirst 339 GroupNonUniformBallot 340 GroupNonUniformInverseBallot \
    341 GroupNonUniformBallotBitExtract 342 GroupNonUniformBallotBitCount 343 GroupNonUniformBallotFindLSB \
    344 GroupNonUniformBallotFindMSB 345 GroupNonUniformShuffle 346 GroupNonUniformShuffleXor \
    347 GroupNonUniformShuffleUp 348 GroupNonUniformShuffleDown 349 GroupNonUniformIAdd 350 GroupNonUniformFAdd \
    351 GroupNonUniformIMul 352 GroupNonUniformFMul 353 GroupNonUniformSMin 354 GroupNonUniformUMin \
    355 GroupNonUniformFMin 356 GroupNonUniformSMax 357 GroupNonUniformUMax 358 GroupNonUniformFMax \
    359 GroupNonUniformBitwiseAnd 360 GroupNonUniformBitwiseOr 361 GroupNonUniformBitwiseXor \
    362 GroupNonUniformLogicalAnd 363 GroupNonUniformLogicalOr 364 GroupNonUniformLogicalXor \
    365 GroupNonUniformQuadBroadcast 366 GroupNonUniformQuadSwap 400 CopyLogical 401 PtrEqual 402 PtrNotEqual \
    403 PtrDiff \
    4416 TerminateInvocation 4421 SubgroupBallotKHR 4422 SubgroupFirstInvocationKHR 4428 SubgroupAllKHR \
    4429 SubgroupAnyKHR 4430 SubgroupAllEqualKHR 4431 GroupNonUniformRotateKHR 4432 SubgroupReadInvocationKHR \
    4445 TraceRayKHR 4446 ExecuteCallableKHR 4447 ConvertUToAccelerationStructureKHR 4448 IgnoreIntersectionKHR \
    4449 TerminateRayKHR 4450 SDot 4451 UDot 4452 SUDot 4453 SDotAccSat 4454 UDotAccSat 4455 SUDotAccSat \
    4472 TypeRayQueryKHR 4473 RayQueryInitializeKHR 4474 RayQueryTerminateKHR \
    4475 RayQueryGenerateIntersectionKHR 4476 RayQueryConfirmIntersectionKHR 4477 RayQueryProceedKHR \
    4479 RayQueryGetIntersectionTypeKHR 5000 GroupIAddNonUniformAMD 5001 GroupFAddNonUniformAMD \
    5002 GroupFMinNonUniformAMD 5003 GroupUMinNonUniformAMD 5004 GroupSMinNonUniformAMD \
    5005 GroupFMaxNonUniformAMD 5006 GroupUMaxNonUniformAMD 5007 GroupSMaxNonUniformAMD 5011 FragmentMaskFetchAMD \
    5012 FragmentFetchAMD 5056 ReadClockKHR 5249 HitObjectRecordHitMotionNV \
    5250 HitObjectRecordHitWithIndexMotionNV 5251 HitObjectRecordMissMotionNV 5252 HitObjectGetWorldToObjectNV \
    5253 HitObjectGetObjectToWorldNV 5254 HitObjectGetObjectRayDirectionNV 5255 HitObjectGetObjectRayOriginNV \
    5256 HitObjectTraceRayMotionNV 5257 HitObjectGetShaderRecordBufferHandleNV \
    5258 HitObjectGetShaderBindingTableRecordIndexNV 5259 HitObjectRecordEmptyNV 5260 HitObjectTraceRayNV \
    5261 HitObjectRecordHitNV 5262 HitObjectRecordHitWithIndexNV 5263 HitObjectRecordMissNV \
    5264 HitObjectExecuteShaderNV 5265 HitObjectGetCurrentTimeNV 5266 HitObjectGetAttributesNV \
    5267 HitObjectGetHitKindNV 5268 HitObjectGetPrimitiveIndexNV 5269 HitObjectGetGeometryIndexNV \
    5270 HitObjectGetInstanceIdNV 5271 HitObjectGetInstanceCustomIndexNV 5272 HitObjectGetWorldRayDirectionNV \
    5273 HitObjectGetWorldRayOriginNV 5274 HitObjectGetRayTMaxNV 5275 HitObjectGetRayTMinNV \
    5276 HitObjectIsEmptyNV 5277 HitObjectIsHitNV 5278 HitObjectIsMissNV 5279 ReorderThreadWithHitObjectNV \
    5280 ReorderThreadWithHintNV 5281 TypeHitObjectNV 5283 ImageSampleFootprintNV 5294 EmitMeshTasksEXT \
    5295 SetMeshOutputsEXT 5296 GroupNonUniformPartitionNV 5299 WritePackedPrimitiveIndices4x8NV \
    5334 ReportIntersectionKHR 5335 IgnoreIntersectionNV 5336 TerminateRayNV 5337 TraceNV 5338 TraceMotionNV \
    5339 TraceRayMotionNV 5340 RayQueryGetIntersectionTriangleVertexPositionsKHR \
    5341 TypeAccelerationStructureKHR 5344 ExecuteCallableNV 5358 TypeCooperativeMatrixNV \
    5359 CooperativeMatrixLoadNV 5360 CooperativeMatrixStoreNV 5361 CooperativeMatrixMulAddNV \
    5362 CooperativeMatrixLengthNV 5364 BeginInvocationInterlockEXT 5365 EndInvocationInterlockEXT \
    5380 DemoteToHelperInvocation 5381 IsHelperInvocationEXT 5391 ConvertUToImageNV 5392 ConvertUToSamplerNV \
    5393 ConvertImageToUNV 5394 ConvertSamplerToUNV 5395 ConvertUToSampledImageNV 5396 ConvertSampledImageToUNV \
    5397 SamplerImageAddressingModeNV 6016 RayQueryGetRayTMinKHR 6017 RayQueryGetRayFlagsKHR \
    6018 RayQueryGetIntersectionTKHR 6019 RayQueryGetIntersectionInstanceCustomIndexKHR \
    6020 RayQueryGetIntersectionInstanceIdKHR \
    6021 RayQueryGetIntersectionInstanceShaderBindingTableRecordOffsetKHR \
    6022 RayQueryGetIntersectionGeometryIndexKHR 6023 RayQueryGetIntersectionPrimitiveIndexKHR \
    6024 RayQueryGetIntersectionBarycentricsKHR 6025 RayQueryGetIntersectionFrontFaceKHR \
    6026 RayQueryGetIntersectionCandidateAABBOpaqueKHR 6027 RayQueryGetIntersectionObjectRayDirectionKHR \
    6028 RayQueryGetIntersectionObjectRayOriginKHR 6029 RayQueryGetWorldRayDirectionKHR \
    6030 RayQueryGetWorldRayOriginKHR 6031 RayQueryGetIntersectionObjectToWorldKHR \
    6032 RayQueryGetIntersectionWorldToObjectKHR";

// Execution models (section 3.3).
const MODELS: &str = "\
    0 Vertex 1 TessellationControl 2 TessellationEvaluation 3 Geometry 4 Fragment 5 GLCompute 6 Kernel \
    5267 TaskNV 5268 MeshNV 5313 RayGenerationKHR 5314 IntersectionKHR 5315 AnyHitKHR 5316 ClosestHitKHR \
    5317 MissKHR 5318 CallableKHR 5364 TaskEXT 5365 MeshEXT";

// Dimensions (section 3.8).
const DIMENSIONS: &str = "\
    0 1D 1 2D 2 3D 3 Cube 4 Rect 5 Buffer 6 SubpassData";

// Storage classes (section 3.7).
const CLASSES: &str = "\
    0 UniformConstant 1 Input 2 Uniform 3 Output 4 Workgroup 5 CrossWorkgroup 6 Private 7 Function 8 Generic \
    9 PushConstant 10 AtomicCounter 11 Image 12 StorageBuffer 5328 CallableDataKHR 5329 IncomingCallableDataKHR \
    5338 RayPayloadKHR 5339 HitAttributeKHR 5342 IncomingRayPayloadKHR 5343 ShaderRecordBufferKHR \
    5349 PhysicalStorageBuffer 5385 HitObjectAttributeNV 5402 TaskPayloadWorkgroupEXT";

// Formats of images (section 3.11).
const FORMATS: &str = "\
    0 Unknown 1 Rgba32f 2 Rgba16f 3 R32f 4 Rgba8 5 Rgba8Snorm 6 Rg32f 7 Rg16f 8 R11fG11fB10f 9 R16f 10 Rgba16 \
    11 Rgb10A2 12 Rg16 13 Rg8 14 R16 15 R8 16 Rgba16Snorm 17 Rg16Snorm 18 Rg8Snorm 19 R16Snorm 20 R8Snorm \
    21 Rgba32i 22 Rgba16i 23 Rgba8i 24 R32i 25 Rg32i 26 Rg16i 27 Rg8i 28 R16i 29 R8i 30 Rgba32ui 31 Rgba16ui \
    32 Rgba8ui 33 R32ui 34 Rgb10a2ui 35 Rg32ui 36 Rg16ui 37 Rg8ui 38 R16ui 39 R8ui 40 R64ui 41 R64i";

// The decorations that are not translated (section 3.20).
const DECORATIONS: &str = "\
    15 Patch 29 Stream 31 Component 36 XfbBuffer";

// Built-ins (section 3.21).
const BUILT_INS: &str = "\
    0 Position 1 PointSize 3 ClipDistance 4 CullDistance 5 VertexId 6 InstanceId 7 PrimitiveId 8 InvocationId \
    9 Layer 10 ViewportIndex 11 TessLevelOuter 12 TessLevelInner 13 TessCoord 14 PatchVertices 15 FragCoord \
    16 PointCoord 17 FrontFacing 18 SampleId 19 SamplePosition 20 SampleMask 22 FragDepth 23 HelperInvocation \
    24 NumWorkgroups 25 WorkgroupSize 26 WorkgroupId 27 LocalInvocationId 28 GlobalInvocationId \
    29 LocalInvocationIndex 30 WorkDim 31 GlobalSize 32 EnqueuedWorkgroupSize 33 GlobalOffset 34 GlobalLinearId \
    36 SubgroupSize 37 SubgroupMaxSize 38 NumSubgroups 39 NumEnqueuedSubgroups 40 SubgroupId \
    41 SubgroupLocalInvocationId 42 VertexIndex 43 InstanceIndex 4160 CoreIDARM 4161 CoreCountARM \
    4162 CoreMaxIDARM 4163 WarpIDARM 4164 WarpMaxIDARM 4416 SubgroupEqMask 4417 SubgroupGeMask \
    4418 SubgroupGtMask 4419 SubgroupLeMask 4420 SubgroupLtMask 4424 BaseVertex 4425 BaseInstance 4426 DrawIndex \
    4432 PrimitiveShadingRateKHR 4438 DeviceIndex 4440 ViewIndex 4444 ShadingRateKHR 4992 BaryCoordNoPerspAMD \
    4993 BaryCoordNoPerspCentroidAMD 4994 BaryCoordNoPerspSampleAMD 4995 BaryCoordSmoothAMD \
    4996 BaryCoordSmoothCentroidAMD 4997 BaryCoordSmoothSampleAMD 4998 BaryCoordPullModelAMD \
    5014 FragStencilRefEXT 5253 ViewportMaskNV 5257 SecondaryPositionNV 5258 SecondaryViewportMaskNV \
    5261 PositionPerViewNV 5262 ViewportMaskPerViewNV 5264 FullyCoveredEXT 5274 TaskCountNV 5275 PrimitiveCountNV \
    5276 PrimitiveIndicesNV 5277 ClipDistancePerViewNV 5278 CullDistancePerViewNV 5279 LayerPerViewNV \
    5280 MeshViewCountNV 5281 MeshViewIndicesNV 5286 BaryCoordKHR 5287 BaryCoordNoPerspKHR 5292 FragSizeEXT \
    5293 FragInvocationCountEXT 5294 PrimitivePointIndicesEXT 5295 PrimitiveLineIndicesEXT \
    5296 PrimitiveTriangleIndicesEXT 5299 CullPrimitiveEXT 5319 LaunchIdKHR 5320 LaunchSizeKHR \
    5321 WorldRayOriginKHR 5322 WorldRayDirectionKHR 5323 ObjectRayOriginKHR 5324 ObjectRayDirectionKHR \
    5325 RayTminKHR 5326 RayTmaxKHR 5327 InstanceCustomIndexKHR 5330 ObjectToWorldKHR 5331 WorldToObjectKHR \
    5332 HitTNV 5333 HitKindKHR 5334 CurrentRayTimeNV 5351 IncomingRayFlagsKHR 5352 RayGeometryIndexKHR \
    5374 WarpsPerSMNV 5375 SMCountNV 5376 WarpIDNV 5377 SMIDNV 6021 CullMaskKHR";

// Functions of GLSL.std.450 (its section 2).
const MATH_FUNCTIONS: &str = "\
    1 Round 2 RoundEven 3 Trunc 4 FAbs 5 SAbs 6 FSign 7 SSign 8 Floor 9 Ceil 10 Fract 11 Radians 12 Degrees 13 Sin \
    14 Cos 15 Tan 16 Asin 17 Acos 18 Atan 19 Sinh 20 Cosh 21 Tanh 22 Asinh 23 Acosh 24 Atanh 25 Atan2 26 Pow 27 Exp \
    28 Log 29 Exp2 30 Log2 31 Sqrt 32 InverseSqrt 33 Determinant 34 MatrixInverse 35 Modf 36 ModfStruct 37 FMin \
    38 UMin 39 SMin 40 FMax 41 UMax 42 SMax 43 FClamp 44 UClamp 45 SClamp 46 FMix 47 IMix 48 Step 49 SmoothStep \
    50 Fma 51 Frexp 52 FrexpStruct 53 Ldexp 54 PackSnorm4x8 55 PackUnorm4x8 56 PackSnorm2x16 57 PackUnorm2x16 \
    58 PackHalf2x16 59 PackDouble2x32 60 UnpackSnorm2x16 61 UnpackUnorm2x16 62 UnpackHalf2x16 63 UnpackSnorm4x8 \
    64 UnpackUnorm4x8 65 UnpackDouble2x32 66 Length 67 Distance 68 Cross 69 Normalize 70 FaceForward 71 Reflect \
    72 Refract 73 FindILsb 74 FindSMsb 75 FindUMsb 76 InterpolateAtCentroid 77 InterpolateAtSample \
    78 InterpolateAtOffset 79 NMin 80 NMax 81 NClamp";

/// Kinds of numbers with names.
#[derive(Clone, Copy)]
pub enum Names {
    /// Opcodes, without `Op`.
    Opcode,
    /// Execution models.
    Model,
    /// Dimensions of images.
    Dimension,
    /// Storage classes.
    StorageClass,
    /// Formats of images.
    Format,
    /// Decorations that are not translated.
    Decoration,
    /// Built-ins.
    BuiltIn,
    /// Functions of GLSL.std.450.
    MathFunction,
}

impl Names {
    /// The name of one of these numbers, empty where it has none.
    pub fn name(self, number: u32) -> &'static str {
        let names = match self {
            Names::Opcode => OPCODES,
            Names::Model => MODELS,
            Names::Dimension => DIMENSIONS,
            Names::StorageClass => CLASSES,
            Names::Format => FORMATS,
            Names::Decoration => DECORATIONS,
            Names::BuiltIn => BUILT_INS,
            Names::MathFunction => MATH_FUNCTIONS,
        };
        name_in(names, number)
    }
}

/// The name of an opcode without `Op`, empty where it has none.
pub fn opcode_name(number: u16) -> &'static str {
    name_in(OPCODES, u32::from(number))
}
