// The JSON forms of types, each kind decoded by a function of its own.
ghost use Rattle.std.specs.Prelude.{◌≡◌, option_map};
ghost use Rattle.serde_json.specs.View.{view as data_of, items_view};
ghost use Rattle.ir_types.specs.judged.Plain.{PlainMember, PlainInner, PlainType, member_view, inner_view, type_view};
ghost use Rattle.document_forms.specs.found.Answers.{Answers};
ghost use Rattle.document_items.specs.found.Types.{a_member, inner_with, an_inner, a_type};

use crate::bindings::BindingForm;
use crate::kinds::InnerKind;
use crate::spaces::{ArraySizeForm, ClassForm, SpaceForm};
use document_forms::{
    At, Each, Form, Maybe, ReadError, Side, Size, Take, Text, Truth, U32, WordOf, read_items,
    read_row, read_tag,
};
use ir_kinds::{CooperativeRole, ImageDimension, Scalar};
use ir_types::{IrType, StructMember, TypeInner, key};
use serde_json::Value;
use std::alloc::Global;

type T = At<key::IrType>;

type ScalarWord = WordOf<Scalar>;

/// The JSON form of a struct member.
pub struct MemberForm;

impl Form for MemberForm {
    type Item = StructMember;

    ghost Plain = { PlainMember };

    ghost view = { member_view };

    ghost form = { a_member };

    fn read(alloc: Global, value: &Value) -> Result<StructMember, ReadError> {
        let (name, ty, binding, offset) = read_row::<(Maybe<Text>, T, Maybe<BindingForm>, U32)>(
            alloc, value,
        )?;
        Ok(StructMember {
            name,
            ty,
            binding,
            offset,
        })
    }
}

#[tactic(auto, unfolding(crate::specs::found::Types::inner_with))]
fn scalar(alloc: Global, rest: &[Value]) -> Result<TypeInner, ReadError>
    ensures { Answers result (λ found. option_map inner_view found ≡ inner_with InnerKind.Scalar (items_view rest.now)) }
{
    let (scalar,) = read_items::<(ScalarWord,)>(alloc, rest)?;
    Ok(TypeInner::Scalar(scalar))
}

#[tactic(auto, unfolding(crate::specs::found::Types::inner_with))]
fn vector(alloc: Global, rest: &[Value]) -> Result<TypeInner, ReadError>
    ensures { Answers result (λ found. option_map inner_view found ≡ inner_with InnerKind.Vector (items_view rest.now)) }
{
    let (size, scalar) = read_items::<(Size, ScalarWord)>(alloc, rest)?;
    Ok(TypeInner::Vector { size, scalar })
}

#[tactic(auto, unfolding(crate::specs::found::Types::inner_with))]
fn matrix(alloc: Global, rest: &[Value]) -> Result<TypeInner, ReadError>
    ensures { Answers result (λ found. option_map inner_view found ≡ inner_with InnerKind.Matrix (items_view rest.now)) }
{
    let (columns, rows, scalar) = read_items::<(Size, Size, ScalarWord)>(alloc, rest)?;
    Ok(TypeInner::Matrix {
        columns,
        rows,
        scalar,
    })
}

#[tactic(auto, unfolding(crate::specs::found::Types::inner_with))]
fn cooperative_matrix(alloc: Global, rest: &[Value]) -> Result<TypeInner, ReadError>
    ensures { Answers result (λ found. option_map inner_view found ≡ inner_with InnerKind.CooperativeMatrix (items_view rest.now)) }
{
    let (columns, rows, scalar, role) = read_items::<
        (Side, Side, ScalarWord, WordOf<CooperativeRole>),
    >(alloc, rest)?;
    Ok(TypeInner::CooperativeMatrix {
        columns,
        rows,
        scalar,
        role,
    })
}

#[tactic(auto, unfolding(crate::specs::found::Types::inner_with))]
fn atomic(alloc: Global, rest: &[Value]) -> Result<TypeInner, ReadError>
    ensures { Answers result (λ found. option_map inner_view found ≡ inner_with InnerKind.Atomic (items_view rest.now)) }
{
    let (scalar,) = read_items::<(ScalarWord,)>(alloc, rest)?;
    Ok(TypeInner::Atomic(scalar))
}

#[tactic(auto, unfolding(crate::specs::found::Types::inner_with))]
fn pointer(alloc: Global, rest: &[Value]) -> Result<TypeInner, ReadError>
    ensures { Answers result (λ found. option_map inner_view found ≡ inner_with InnerKind.Pointer (items_view rest.now)) }
{
    let (base, space) = read_items::<(T, SpaceForm)>(alloc, rest)?;
    Ok(TypeInner::Pointer { base, space })
}

#[tactic(auto, unfolding(crate::specs::found::Types::inner_with))]
fn value_pointer(alloc: Global, rest: &[Value]) -> Result<TypeInner, ReadError>
    ensures { Answers result (λ found. option_map inner_view found ≡ inner_with InnerKind.ValuePointer (items_view rest.now)) }
{
    let (size, scalar, space) = read_items::<(Maybe<Size>, ScalarWord, SpaceForm)>(alloc, rest)?;
    Ok(TypeInner::ValuePointer {
        size,
        scalar,
        space,
    })
}

#[tactic(auto, unfolding(crate::specs::found::Types::inner_with))]
fn array(alloc: Global, rest: &[Value]) -> Result<TypeInner, ReadError>
    ensures { Answers result (λ found. option_map inner_view found ≡ inner_with InnerKind.Array (items_view rest.now)) }
{
    let (base, size, stride) = read_items::<(T, ArraySizeForm, U32)>(alloc, rest)?;
    Ok(TypeInner::Array { base, size, stride })
}

#[tactic(auto, unfolding(crate::specs::found::Types::inner_with))]
fn structure(alloc: Global, rest: &[Value]) -> Result<TypeInner, ReadError>
    ensures { Answers result (λ found. option_map inner_view found ≡ inner_with InnerKind.Struct (items_view rest.now)) }
{
    let (members, span) = read_items::<(Each<MemberForm>, U32)>(alloc, rest)?;
    Ok(TypeInner::Struct { members, span })
}

#[tactic(auto, unfolding(crate::specs::found::Types::inner_with))]
fn image(alloc: Global, rest: &[Value]) -> Result<TypeInner, ReadError>
    ensures { Answers result (λ found. option_map inner_view found ≡ inner_with InnerKind.Image (items_view rest.now)) }
{
    let (dim, arrayed, class) = read_items::<(WordOf<ImageDimension>, Truth, ClassForm)>(
        alloc, rest,
    )?;
    Ok(TypeInner::Image {
        dim,
        arrayed,
        class,
    })
}

#[tactic(auto, unfolding(crate::specs::found::Types::inner_with))]
fn sampler(alloc: Global, rest: &[Value]) -> Result<TypeInner, ReadError>
    ensures { Answers result (λ found. option_map inner_view found ≡ inner_with InnerKind.Sampler (items_view rest.now)) }
{
    let (comparison,) = read_items::<(Truth,)>(alloc, rest)?;
    Ok(TypeInner::Sampler { comparison })
}

#[tactic(auto, unfolding(crate::specs::found::Types::inner_with))]
fn acceleration_structure(alloc: Global, rest: &[Value]) -> Result<TypeInner, ReadError>
    ensures { Answers result (λ found. option_map inner_view found ≡ inner_with InnerKind.AccelerationStructure (items_view rest.now)) }
{
    let (vertex_return,) = read_items::<(Truth,)>(alloc, rest)?;
    Ok(TypeInner::AccelerationStructure { vertex_return })
}

#[tactic(auto, unfolding(crate::specs::found::Types::inner_with))]
fn ray_query(alloc: Global, rest: &[Value]) -> Result<TypeInner, ReadError>
    ensures { Answers result (λ found. option_map inner_view found ≡ inner_with InnerKind.RayQuery (items_view rest.now)) }
{
    let (vertex_return,) = read_items::<(Truth,)>(alloc, rest)?;
    Ok(TypeInner::RayQuery { vertex_return })
}

#[tactic(auto, unfolding(crate::specs::found::Types::inner_with))]
fn binding_array(alloc: Global, rest: &[Value]) -> Result<TypeInner, ReadError>
    ensures { Answers result (λ found. option_map inner_view found ≡ inner_with InnerKind.BindingArray (items_view rest.now)) }
{
    let (base, size) = read_items::<(T, ArraySizeForm)>(alloc, rest)?;
    Ok(TypeInner::BindingArray { base, size })
}

/// The JSON form of an inner type.
pub struct InnerForm;

impl Form for InnerForm {
    type Item = TypeInner;

    ghost Plain = { PlainInner };

    ghost view = { inner_view };

    ghost form = { an_inner };

    fn read(alloc: Global, value: &Value) -> Result<TypeInner, ReadError> {
        let (kind, rest) = read_tag(value)?;
        match kind {
            InnerKind::Scalar => scalar(alloc, rest),
            InnerKind::Vector => vector(alloc, rest),
            InnerKind::Matrix => matrix(alloc, rest),
            InnerKind::CooperativeMatrix => cooperative_matrix(alloc, rest),
            InnerKind::Atomic => atomic(alloc, rest),
            InnerKind::Pointer => pointer(alloc, rest),
            InnerKind::ValuePointer => value_pointer(alloc, rest),
            InnerKind::Array => array(alloc, rest),
            InnerKind::Struct => structure(alloc, rest),
            InnerKind::Image => image(alloc, rest),
            InnerKind::Sampler => sampler(alloc, rest),
            InnerKind::AccelerationStructure => acceleration_structure(alloc, rest),
            InnerKind::RayQuery => ray_query(alloc, rest),
            InnerKind::BindingArray => binding_array(alloc, rest),
        }
    }
}

/// The JSON form of a type.
pub struct TypeForm;

impl Form for TypeForm {
    type Item = IrType;

    ghost Plain = { PlainType };

    ghost view = { type_view };

    ghost form = { a_type };

    fn read(alloc: Global, value: &Value) -> Result<IrType, ReadError> {
        let (name, inner) = read_row::<(Maybe<Text>, InnerForm)>(alloc, value)?;
        Ok(IrType { name, inner })
    }
}

impl Take for TypeForm {
    fn take(alloc: Global, value: Value) -> Result<IrType, ReadError> {
        TypeForm::read(alloc, &value)
    }
}
