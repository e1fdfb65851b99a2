// What operations over a subgroup are in the IR (section 3.52.24).

use ir_kinds::{ScalarKind, SubgroupOperation};
use spirv_numbers::ops;

// Operations over the values of all invocations, with the sign that their argument gets.
static COLLECTIVES: [(u16, SubgroupOperation, Option<ScalarKind>); 24] = [
    (ops::GROUP_NON_UNIFORM_I_ADD, SubgroupOperation::Add, None),
    (ops::GROUP_NON_UNIFORM_F_ADD, SubgroupOperation::Add, None),
    (ops::GROUP_NON_UNIFORM_I_MUL, SubgroupOperation::Mul, None),
    (ops::GROUP_NON_UNIFORM_F_MUL, SubgroupOperation::Mul, None),
    (
        ops::GROUP_NON_UNIFORM_S_MIN,
        SubgroupOperation::Min,
        Some(ScalarKind::Sint),
    ),
    (
        ops::GROUP_NON_UNIFORM_U_MIN,
        SubgroupOperation::Min,
        Some(ScalarKind::Uint),
    ),
    (ops::GROUP_NON_UNIFORM_F_MIN, SubgroupOperation::Min, None),
    (
        ops::GROUP_NON_UNIFORM_S_MAX,
        SubgroupOperation::Max,
        Some(ScalarKind::Sint),
    ),
    (
        ops::GROUP_NON_UNIFORM_U_MAX,
        SubgroupOperation::Max,
        Some(ScalarKind::Uint),
    ),
    (ops::GROUP_NON_UNIFORM_F_MAX, SubgroupOperation::Max, None),
    (
        ops::GROUP_NON_UNIFORM_BITWISE_AND,
        SubgroupOperation::And,
        None,
    ),
    (
        ops::GROUP_NON_UNIFORM_BITWISE_OR,
        SubgroupOperation::Or,
        None,
    ),
    (
        ops::GROUP_NON_UNIFORM_BITWISE_XOR,
        SubgroupOperation::Xor,
        None,
    ),
    (
        ops::GROUP_NON_UNIFORM_LOGICAL_AND,
        SubgroupOperation::And,
        None,
    ),
    (
        ops::GROUP_NON_UNIFORM_LOGICAL_OR,
        SubgroupOperation::Or,
        None,
    ),
    (
        ops::GROUP_NON_UNIFORM_LOGICAL_XOR,
        SubgroupOperation::Xor,
        None,
    ),
    // of the extension shader_ballot by AMD
    (5000, SubgroupOperation::Add, None),
    (5001, SubgroupOperation::Add, None),
    (5002, SubgroupOperation::Min, None),
    (5003, SubgroupOperation::Min, Some(ScalarKind::Uint)),
    (5004, SubgroupOperation::Min, Some(ScalarKind::Sint)),
    (5005, SubgroupOperation::Max, None),
    (5006, SubgroupOperation::Max, Some(ScalarKind::Uint)),
    (5007, SubgroupOperation::Max, Some(ScalarKind::Sint)),
];

/// The operation over the values of all invocations that an opcode is, with the sign that its argument gets, if it is one.
pub fn collective_of(opcode: u16) -> Option<(SubgroupOperation, Option<ScalarKind>)> {
    for row in &COLLECTIVES {
        if row.0 == opcode {
            return Some((row.1, row.2));
        }
    }
    None
}
