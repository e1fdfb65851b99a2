// Each call of overload sets once.
use crate::asked::preferred;
use ir_kinds::{MathFunction, Scalar, VectorSize};
use ir_types::TypeInner;
use std::alloc::{AllocError, Global};
use test_support::call::freeing;
use typing_overloads::{
    AnyOverloadSet, Arguments, Conclusion, ConstructorSet, ConstructorSize, MathFunctionExt,
    OneBitsIter, OverloadSet, Rule, ScalarSet, ValueType,
};

const VEC2: ConstructorSize = ConstructorSize::Vector(VectorSize::Bi);

const VEC3: ConstructorSize = ConstructorSize::Vector(VectorSize::Tri);

const fn of(size: ConstructorSize, scalar: Scalar) -> ValueType {
    ValueType { size, scalar }
}

const fn one(scalar: Scalar) -> ValueType {
    of(ConstructorSize::Scalar, scalar)
}

// Adds these arguments.
fn supply_all(
    alloc: Global,
    set: &mut AnyOverloadSet,
    arguments: &[(usize, ValueType)],
) -> Result<(), AllocError> {
    for argument in arguments {
        *set = set.arg(alloc, argument.0, &argument.1.to_inner())?;
    }
    Ok(())
}

// What is left of a function's rules after these arguments.
fn after(
    alloc: Global,
    function: MathFunction,
    arguments: &[(usize, ValueType)],
) -> Result<AnyOverloadSet, AllocError> {
    let mut set = function.overloads(alloc)?;
    match supply_all(alloc, &mut set, arguments) {
        Ok(()) => Ok(set),
        Err(error) => {
            drop(set);
            Err(error)
        }
    }
}

const fn gives(arguments: Arguments, value: ValueType) -> Option<Rule> {
    Some(Rule {
        arguments,
        conclusion: Conclusion::Value(value),
    })
}

// Whether the preferred rule after these arguments is the expected one.
fn prefers(
    alloc: Global,
    function: MathFunction,
    arguments: &[(usize, ValueType)],
    expected: Option<Rule>,
) -> Result<bool, AllocError> {
    let set = after(alloc, function, arguments)?;
    Ok(freeing(preferred(&set) == expected, set))
}

// The same among those without abstract arguments.
fn prefers_concrete(
    alloc: Global,
    function: MathFunction,
    arguments: &[(usize, ValueType)],
    expected: Option<Rule>,
) -> Result<bool, AllocError> {
    let set = after(alloc, function, arguments)?.concrete_only();
    Ok(freeing(preferred(&set) == expected, set))
}

fn rows_of_one(alloc: Global) -> Result<bool, AllocError> {
    let given = [(0, one(Scalar::ABSTRACT_INT))];
    let float = one(Scalar::ABSTRACT_FLOAT);
    let real = one(Scalar::F32);
    let sin = gives(Arguments::One(float), float);
    let concrete = gives(Arguments::One(real), real);
    Ok(
        prefers(alloc, MathFunction::Sin, &given, sin)?
            && prefers_concrete(alloc, MathFunction::Sin, &given, concrete)?
            && prefers(alloc, MathFunction::Sign, &[(0, one(Scalar::U32))], None)?,
    )
}

fn rows_of_more(alloc: Global) -> Result<bool, AllocError> {
    let int = one(Scalar::ABSTRACT_INT);
    let word = one(Scalar::U32);
    let pair = of(VEC2, Scalar::ABSTRACT_INT);
    let triple = of(VEC3, Scalar::F32);
    let real = one(Scalar::F32);
    let max = gives(Arguments::Two(word, word), word);
    let dot = gives(Arguments::Two(pair, pair), int);
    let mix = gives(Arguments::Three(triple, triple, real), triple);
    Ok(
        prefers(alloc, MathFunction::Max, &[(0, int), (1, word)], max)?
            && prefers(alloc, MathFunction::Dot, &[(0, pair), (1, pair)], dot)?
            && prefers(alloc, MathFunction::Mix, &[(0, triple), (2, real)], mix)?,
    )
}

fn one_bits() -> bool {
    let mut ones = OneBitsIter::new(11);
    ones.next() == Some(1)
        && ones.next() == Some(2)
        && ones.next() == Some(8)
        && ones.next().is_none()
}

fn sets() -> bool {
    let two = ScalarSet(ScalarSet::F32.0 | ScalarSet::U32.0);
    let mut members = two.members();
    members.next() == Some(ScalarSet::U32)
        && members.next() == Some(ScalarSet::F32)
        && members.next().is_none()
        && two.scalars().next() == Some(Scalar::U32)
}

fn wider_sets() -> bool {
    let wider = ScalarSet::convertible_from(Scalar::ABSTRACT_FLOAT);
    wider == ScalarSet::FLOAT
        && wider.most_general_scalar() == Scalar::ABSTRACT_FLOAT
        && ScalarSet::singleton(Scalar::I16) == ScalarSet::I16
}

fn one_shape() -> bool {
    let inner = of(VEC3, Scalar::F32).to_inner();
    let shape = ConstructorSet::singleton(&inner);
    shape == ConstructorSet::VEC3 && shape.is_singleton() && shape.size() == VEC3
}

fn shapes() -> bool {
    let sampler = TypeInner::Sampler { comparison: false };
    !ConstructorSet::VECN.is_singleton()
        && ConstructorSet::VECN.sizes().next() == Some(VEC2)
        && ConstructorSet::VECN.members().next() == Some(ConstructorSet::VEC2)
        && ConstructorSet::singleton(&sampler) == ConstructorSet(0)
}

// The number of rules of a set.
fn count(set: &AnyOverloadSet, alloc: Global) -> Result<usize, AllocError> {
    Ok(set.overload_list(alloc)?.len())
}

// The number of rules of a clone.
fn cloned(set: &AnyOverloadSet, alloc: Global) -> Result<usize, AllocError> {
    let same = set.clone()?;
    freeing(count(&same, alloc), same)
}

// Whether the types required at the third argument are the expected ones.
fn requires_third(set: &AnyOverloadSet, alloc: Global) -> Result<bool, AllocError> {
    let found = set.allowed_args(alloc, 2)?;
    Ok(freeing(
        found.len() == 28 && found.first() == Some(&one(Scalar::ABSTRACT_FLOAT)),
        found,
    ))
}

fn is_mix(mix: &AnyOverloadSet, alloc: Global) -> Result<bool, AllocError> {
    let counts = !mix.is_empty() && mix.min_arguments() == 3 && mix.max_arguments() == 3;
    Ok(counts && cloned(mix, alloc)? == 28 && requires_third(mix, alloc)?)
}

fn of_mix(alloc: Global) -> Result<bool, AllocError> {
    let mix = MathFunction::Mix.overloads(alloc)?;
    freeing(is_mix(&mix, alloc), mix)
}

// Whether a sampler leaves no rule of a set, and no type is allowed at the fourth argument.
fn leaves_nothing(mix: &AnyOverloadSet, alloc: Global) -> Result<bool, AllocError> {
    let none = mix.arg(alloc, 0, &TypeInner::Sampler { comparison: false })?;
    let is_empty = none.is_empty();
    drop(none);
    Ok(is_empty && mix.allowed_args(alloc, 3)?.is_empty())
}

fn nothing_of_mix(alloc: Global) -> Result<bool, AllocError> {
    let mix = MathFunction::Mix.overloads(alloc)?;
    freeing(leaves_nothing(&mix, alloc), mix)
}

fn rules() -> bool {
    let real = one(Scalar::F32);
    let rule = Rule {
        arguments: Arguments::Two(real, real),
        conclusion: Conclusion::Value(real),
    };
    rule.arguments.len() == 2
        && rule.arguments.get(2).is_none()
        && rule.rank_at(1, one(Scalar::ABSTRACT_INT)) == Some(11)
        && rule.accepts(0, &real.to_inner())
        && rule.is_concrete()
}

fn value_types() -> bool {
    let real = one(Scalar::F32);
    real.rank_to(one(Scalar::F16)).is_none()
        && ValueType::of(&VEC2.to_inner(Scalar::F32)) == Some(of(VEC2, Scalar::F32))
        && VEC3.place() == 2
}

// The first call without allocation whose result is unexpected.
fn wrong_without_memory() -> Option<&'static str> {
    if !one_bits() {
        Some("the one bits of 11")
    } else if !sets() || !wider_sets() {
        Some("sets of scalars")
    } else if !one_shape() || !shapes() {
        Some("sets of shapes")
    } else if !rules() || !value_types() {
        Some("rules and types")
    } else {
        None
    }
}

// The first of the others.
fn wrong_with_memory(alloc: Global) -> Result<Option<&'static str>, AllocError> {
    if !rows_of_one(alloc)? {
        Ok(Some("functions of one argument"))
    } else if !rows_of_more(alloc)? {
        Ok(Some("functions of more"))
    } else if !of_mix(alloc)? {
        Ok(Some("all rules of a function"))
    } else if !nothing_of_mix(alloc)? {
        Ok(Some("rules that nothing leaves"))
    } else {
        Ok(None)
    }
}

/// Makes each call of overload sets once. Returns the call whose result is unexpected, if any.
pub fn every_call(alloc: Global) -> Result<Option<&'static str>, AllocError> {
    match wrong_without_memory() {
        Some(wrong) => Ok(Some(wrong)),
        None => wrong_with_memory(alloc),
    }
}
