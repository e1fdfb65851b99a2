//! The numbers of opcodes (section 3.52 of the standard).

// Debug and annotations (sections 3.52.1 to 3.52.3).
pub const NOP: u16 = 0;

pub const UNDEF: u16 = 1;

pub const SOURCE_CONTINUED: u16 = 2;

pub const SOURCE: u16 = 3;

pub const SOURCE_EXTENSION: u16 = 4;

pub const NAME: u16 = 5;

pub const MEMBER_NAME: u16 = 6;

pub const STRING: u16 = 7;

pub const LINE: u16 = 8;

pub const NO_LINE: u16 = 317;

pub const MODULE_PROCESSED: u16 = 330;

pub const DECORATE: u16 = 71;

pub const MEMBER_DECORATE: u16 = 72;

pub const DECORATION_GROUP: u16 = 73;

pub const GROUP_DECORATE: u16 = 74;

pub const GROUP_MEMBER_DECORATE: u16 = 75;

pub const DECORATE_ID: u16 = 332;

pub const DECORATE_STRING: u16 = 5632;

pub const MEMBER_DECORATE_STRING: u16 = 5633;

// Extensions and modes (sections 3.52.4 and 3.52.5).
pub const EXTENSION: u16 = 10;

pub const EXT_INST_IMPORT: u16 = 11;

pub const EXT_INST: u16 = 12;

pub const MEMORY_MODEL: u16 = 14;

pub const ENTRY_POINT: u16 = 15;

pub const EXECUTION_MODE: u16 = 16;

pub const EXECUTION_MODE_ID: u16 = 331;

pub const CAPABILITY: u16 = 17;

// Types (section 3.52.6).
pub const TYPE_VOID: u16 = 19;

pub const TYPE_BOOL: u16 = 20;

pub const TYPE_INT: u16 = 21;

pub const TYPE_FLOAT: u16 = 22;

pub const TYPE_VECTOR: u16 = 23;

pub const TYPE_MATRIX: u16 = 24;

pub const TYPE_IMAGE: u16 = 25;

pub const TYPE_SAMPLER: u16 = 26;

pub const TYPE_SAMPLED_IMAGE: u16 = 27;

pub const TYPE_ARRAY: u16 = 28;

pub const TYPE_RUNTIME_ARRAY: u16 = 29;

pub const TYPE_STRUCT: u16 = 30;

pub const TYPE_POINTER: u16 = 32;

pub const TYPE_FUNCTION: u16 = 33;

pub const TYPE_FORWARD_POINTER: u16 = 39;

// Constants (section 3.52.7).
pub const CONSTANT_TRUE: u16 = 41;

pub const CONSTANT_FALSE: u16 = 42;

pub const CONSTANT: u16 = 43;

pub const CONSTANT_COMPOSITE: u16 = 44;

pub const CONSTANT_NULL: u16 = 46;

pub const SPEC_CONSTANT_TRUE: u16 = 48;

pub const SPEC_CONSTANT_FALSE: u16 = 49;

pub const SPEC_CONSTANT: u16 = 50;

pub const SPEC_CONSTANT_COMPOSITE: u16 = 51;

pub const SPEC_CONSTANT_OP: u16 = 52;

// Memory (section 3.52.8).
pub const VARIABLE: u16 = 59;

pub const IMAGE_TEXEL_POINTER: u16 = 60;

pub const LOAD: u16 = 61;

pub const STORE: u16 = 62;

pub const COPY_MEMORY: u16 = 63;

pub const ACCESS_CHAIN: u16 = 65;

pub const IN_BOUNDS_ACCESS_CHAIN: u16 = 66;

pub const ARRAY_LENGTH: u16 = 68;

pub const COPY_OBJECT: u16 = 83;

pub const COPY_LOGICAL: u16 = 400;

// Functions (section 3.52.9).
pub const FUNCTION: u16 = 54;

pub const FUNCTION_PARAMETER: u16 = 55;

pub const FUNCTION_END: u16 = 56;

pub const FUNCTION_CALL: u16 = 57;

// Images (section 3.52.10).
pub const SAMPLED_IMAGE: u16 = 86;

pub const IMAGE_SAMPLE_IMPLICIT_LOD: u16 = 87;

pub const IMAGE_SAMPLE_EXPLICIT_LOD: u16 = 88;

pub const IMAGE_SAMPLE_DREF_IMPLICIT_LOD: u16 = 89;

pub const IMAGE_SAMPLE_DREF_EXPLICIT_LOD: u16 = 90;

pub const IMAGE_SAMPLE_PROJ_IMPLICIT_LOD: u16 = 91;

pub const IMAGE_SAMPLE_PROJ_EXPLICIT_LOD: u16 = 92;

pub const IMAGE_SAMPLE_PROJ_DREF_IMPLICIT_LOD: u16 = 93;

pub const IMAGE_SAMPLE_PROJ_DREF_EXPLICIT_LOD: u16 = 94;

pub const IMAGE_FETCH: u16 = 95;

pub const IMAGE_GATHER: u16 = 96;

pub const IMAGE_DREF_GATHER: u16 = 97;

pub const IMAGE_READ: u16 = 98;

pub const IMAGE_WRITE: u16 = 99;

pub const IMAGE: u16 = 100;

pub const IMAGE_QUERY_SIZE_LOD: u16 = 103;

pub const IMAGE_QUERY_SIZE: u16 = 104;

pub const IMAGE_QUERY_LOD: u16 = 105;

pub const IMAGE_QUERY_LEVELS: u16 = 106;

pub const IMAGE_QUERY_SAMPLES: u16 = 107;

// Conversions (section 3.52.11).
pub const CONVERT_F_TO_U: u16 = 109;

pub const CONVERT_F_TO_S: u16 = 110;

pub const CONVERT_S_TO_F: u16 = 111;

pub const CONVERT_U_TO_F: u16 = 112;

pub const U_CONVERT: u16 = 113;

pub const S_CONVERT: u16 = 114;

pub const F_CONVERT: u16 = 115;

pub const QUANTIZE_TO_F16: u16 = 116;

pub const BITCAST: u16 = 124;

// Composites (section 3.52.12).
pub const VECTOR_EXTRACT_DYNAMIC: u16 = 77;

pub const VECTOR_INSERT_DYNAMIC: u16 = 78;

pub const VECTOR_SHUFFLE: u16 = 79;

pub const COMPOSITE_CONSTRUCT: u16 = 80;

pub const COMPOSITE_EXTRACT: u16 = 81;

pub const COMPOSITE_INSERT: u16 = 82;

pub const TRANSPOSE: u16 = 84;

// Arithmetic (section 3.52.13).
pub const S_NEGATE: u16 = 126;

pub const F_NEGATE: u16 = 127;

pub const I_ADD: u16 = 128;

pub const F_ADD: u16 = 129;

pub const I_SUB: u16 = 130;

pub const F_SUB: u16 = 131;

pub const I_MUL: u16 = 132;

pub const F_MUL: u16 = 133;

pub const U_DIV: u16 = 134;

pub const S_DIV: u16 = 135;

pub const F_DIV: u16 = 136;

pub const U_MOD: u16 = 137;

pub const S_REM: u16 = 138;

pub const S_MOD: u16 = 139;

pub const F_REM: u16 = 140;

pub const F_MOD: u16 = 141;

pub const VECTOR_TIMES_SCALAR: u16 = 142;

pub const MATRIX_TIMES_SCALAR: u16 = 143;

pub const VECTOR_TIMES_MATRIX: u16 = 144;

pub const MATRIX_TIMES_VECTOR: u16 = 145;

pub const MATRIX_TIMES_MATRIX: u16 = 146;

pub const OUTER_PRODUCT: u16 = 147;

pub const DOT: u16 = 148;

pub const I_ADD_CARRY: u16 = 149;

pub const I_SUB_BORROW: u16 = 150;

// Bits (section 3.52.14).
pub const SHIFT_RIGHT_LOGICAL: u16 = 194;

pub const SHIFT_RIGHT_ARITHMETIC: u16 = 195;

pub const SHIFT_LEFT_LOGICAL: u16 = 196;

pub const BITWISE_OR: u16 = 197;

pub const BITWISE_XOR: u16 = 198;

pub const BITWISE_AND: u16 = 199;

pub const NOT: u16 = 200;

pub const BIT_FIELD_INSERT: u16 = 201;

pub const BIT_FIELD_S_EXTRACT: u16 = 202;

pub const BIT_FIELD_U_EXTRACT: u16 = 203;

pub const BIT_REVERSE: u16 = 204;

pub const BIT_COUNT: u16 = 205;

// Relations and logic (section 3.52.15).
pub const ANY: u16 = 154;

pub const ALL: u16 = 155;

pub const IS_NAN: u16 = 156;

pub const IS_INF: u16 = 157;

pub const LOGICAL_EQUAL: u16 = 164;

pub const LOGICAL_NOT_EQUAL: u16 = 165;

pub const LOGICAL_OR: u16 = 166;

pub const LOGICAL_AND: u16 = 167;

pub const LOGICAL_NOT: u16 = 168;

pub const SELECT: u16 = 169;

pub const I_EQUAL: u16 = 170;

pub const I_NOT_EQUAL: u16 = 171;

pub const U_GREATER_THAN: u16 = 172;

pub const S_GREATER_THAN: u16 = 173;

pub const U_GREATER_THAN_EQUAL: u16 = 174;

pub const S_GREATER_THAN_EQUAL: u16 = 175;

pub const U_LESS_THAN: u16 = 176;

pub const S_LESS_THAN: u16 = 177;

pub const U_LESS_THAN_EQUAL: u16 = 178;

pub const S_LESS_THAN_EQUAL: u16 = 179;

pub const F_ORD_EQUAL: u16 = 180;

pub const F_UNORD_EQUAL: u16 = 181;

pub const F_ORD_NOT_EQUAL: u16 = 182;

pub const F_UNORD_NOT_EQUAL: u16 = 183;

pub const F_ORD_LESS_THAN: u16 = 184;

pub const F_UNORD_LESS_THAN: u16 = 185;

pub const F_ORD_GREATER_THAN: u16 = 186;

pub const F_UNORD_GREATER_THAN: u16 = 187;

pub const F_ORD_LESS_THAN_EQUAL: u16 = 188;

pub const F_UNORD_LESS_THAN_EQUAL: u16 = 189;

pub const F_ORD_GREATER_THAN_EQUAL: u16 = 190;

pub const F_UNORD_GREATER_THAN_EQUAL: u16 = 191;

// Derivatives (section 3.52.16).
pub const D_PDX: u16 = 207;

pub const D_PDY: u16 = 208;

pub const FWIDTH: u16 = 209;

pub const D_PDX_FINE: u16 = 210;

pub const D_PDY_FINE: u16 = 211;

pub const FWIDTH_FINE: u16 = 212;

pub const D_PDX_COARSE: u16 = 213;

pub const D_PDY_COARSE: u16 = 214;

pub const FWIDTH_COARSE: u16 = 215;

// Control flow (section 3.52.17).
pub const PHI: u16 = 245;

pub const LOOP_MERGE: u16 = 246;

pub const SELECTION_MERGE: u16 = 247;

pub const LABEL: u16 = 248;

pub const BRANCH: u16 = 249;

pub const BRANCH_CONDITIONAL: u16 = 250;

pub const SWITCH: u16 = 251;

pub const KILL: u16 = 252;

pub const RETURN: u16 = 253;

pub const RETURN_VALUE: u16 = 254;

pub const UNREACHABLE: u16 = 255;

pub const TERMINATE_INVOCATION: u16 = 4416;

// Atomics (section 3.52.18).
pub const ATOMIC_LOAD: u16 = 227;

pub const ATOMIC_STORE: u16 = 228;

pub const ATOMIC_EXCHANGE: u16 = 229;

pub const ATOMIC_COMPARE_EXCHANGE: u16 = 230;

pub const ATOMIC_I_INCREMENT: u16 = 232;

pub const ATOMIC_I_DECREMENT: u16 = 233;

pub const ATOMIC_I_ADD: u16 = 234;

pub const ATOMIC_I_SUB: u16 = 235;

pub const ATOMIC_S_MIN: u16 = 236;

pub const ATOMIC_U_MIN: u16 = 237;

pub const ATOMIC_S_MAX: u16 = 238;

pub const ATOMIC_U_MAX: u16 = 239;

pub const ATOMIC_AND: u16 = 240;

pub const ATOMIC_OR: u16 = 241;

pub const ATOMIC_XOR: u16 = 242;

pub const ATOMIC_F_ADD_EXT: u16 = 6035;

// Barriers and subgroups (sections 3.52.20 and 3.52.24).
pub const CONTROL_BARRIER: u16 = 224;

pub const MEMORY_BARRIER: u16 = 225;

pub const GROUP_NON_UNIFORM_ALL: u16 = 334;

pub const GROUP_NON_UNIFORM_ANY: u16 = 335;

pub const GROUP_NON_UNIFORM_BROADCAST: u16 = 337;

pub const GROUP_NON_UNIFORM_BROADCAST_FIRST: u16 = 338;

pub const GROUP_NON_UNIFORM_BALLOT: u16 = 339;

pub const GROUP_NON_UNIFORM_SHUFFLE: u16 = 345;

pub const GROUP_NON_UNIFORM_SHUFFLE_XOR: u16 = 346;

pub const GROUP_NON_UNIFORM_SHUFFLE_UP: u16 = 347;

pub const GROUP_NON_UNIFORM_SHUFFLE_DOWN: u16 = 348;

pub const GROUP_NON_UNIFORM_I_ADD: u16 = 349;

pub const GROUP_NON_UNIFORM_F_ADD: u16 = 350;

pub const GROUP_NON_UNIFORM_I_MUL: u16 = 351;

pub const GROUP_NON_UNIFORM_F_MUL: u16 = 352;

pub const GROUP_NON_UNIFORM_S_MIN: u16 = 353;

pub const GROUP_NON_UNIFORM_U_MIN: u16 = 354;

pub const GROUP_NON_UNIFORM_F_MIN: u16 = 355;

pub const GROUP_NON_UNIFORM_S_MAX: u16 = 356;

pub const GROUP_NON_UNIFORM_U_MAX: u16 = 357;

pub const GROUP_NON_UNIFORM_F_MAX: u16 = 358;

pub const GROUP_NON_UNIFORM_BITWISE_AND: u16 = 359;

pub const GROUP_NON_UNIFORM_BITWISE_OR: u16 = 360;

pub const GROUP_NON_UNIFORM_BITWISE_XOR: u16 = 361;

pub const GROUP_NON_UNIFORM_LOGICAL_AND: u16 = 362;

pub const GROUP_NON_UNIFORM_LOGICAL_OR: u16 = 363;

pub const GROUP_NON_UNIFORM_LOGICAL_XOR: u16 = 364;

pub const GROUP_NON_UNIFORM_QUAD_BROADCAST: u16 = 365;

pub const GROUP_NON_UNIFORM_QUAD_SWAP: u16 = 366;

// Of the extensions ray_query and ray_tracing_position_fetch.
pub const TYPE_RAY_QUERY: u16 = 4472;

pub const RAY_QUERY_INITIALIZE: u16 = 4473;

pub const RAY_QUERY_TERMINATE: u16 = 4474;

pub const RAY_QUERY_GENERATE_INTERSECTION: u16 = 4475;

pub const RAY_QUERY_CONFIRM_INTERSECTION: u16 = 4476;

pub const RAY_QUERY_PROCEED: u16 = 4477;

pub const RAY_QUERY_GET_INTERSECTION_TYPE: u16 = 4479;

pub const RAY_QUERY_GET_TRIANGLE_VERTEX_POSITIONS: u16 = 5340;

pub const TYPE_ACCELERATION_STRUCTURE: u16 = 5341;

// Of the extension ray_tracing.
pub const TRACE_RAY_KHR: u16 = 4445;

pub const IGNORE_INTERSECTION_KHR: u16 = 4448;

pub const TERMINATE_RAY_KHR: u16 = 4449;

// Of the extension mesh_shader.
pub const EMIT_MESH_TASKS_EXT: u16 = 5294;

pub const SET_MESH_OUTPUTS_EXT: u16 = 5295;
