// The JSON forms of address spaces, array sizes and image classes.
ghost use Rattle.std.specs.Prelude.{◌≡◌, ℕ, option_map};
ghost use Rattle.serde_json.specs.View.{view as data_of};
ghost use Rattle.ir_flags.specs.declared.memory.StorageAccess.{StorageAccess};
ghost use Rattle.ir_kinds.specs.declared.images.ImageClass.{ImageClass};
ghost use Rattle.ir_kinds.specs.declared.spaces.AddressSpace.{AddressSpace};
ghost use Rattle.ir_types.specs.declared.types.ArraySize.{ArraySize};
ghost use Rattle.document_forms.specs.found.Answers.{Answers};
ghost use Rattle.document_items.specs.found.Types.{a_positive, a_storage, a_space, an_array_size, a_class};

use crate::kinds::{ClassKind, SizeKind, StorageKind};
use document_forms::{
    At, End, Form, ReadError, SetOf, Truth, U32, Wanted, WordOf, read_items, read_tag, read_word,
};
use ir_flags::StorageAccess;
use ir_kinds::{AddressSpace, ImageClass, ScalarKind, StorageFormat};
use ir_types::{ArraySize, key};
use serde_json::Value;
use std::alloc::Global;

/// A 32-bit unsigned integer that is not 0.
pub struct Positive;

impl Form for Positive {
    type Item = u32;

    ghost Plain = { ℕ };

    ghost view = { λ n. n };

    ghost form = { a_positive };

    fn read(alloc: Global, value: &Value) -> Result<u32, ReadError> {
        let number = U32::read(alloc, value)?;
        if 1 <= number {
            Ok(number)
        } else {
            Err(ReadError::here(Wanted::Count))
        }
    }
}

/// The JSON form of the storage address space.
pub struct StorageForm;

impl Form for StorageForm {
    type Item = StorageAccess;

    ghost Plain = { StorageAccess };

    ghost view = { λ a. a };

    ghost form = { a_storage };

    #[tactic(auto, unfolding(crate::specs::found::Types::storage_with))]
    fn read(alloc: Global, value: &Value) -> Result<StorageAccess, ReadError> {
        let (kind, rest) = read_tag(value)?;
        match kind {
            StorageKind::Storage => {
                let (access,) = read_items::<(SetOf<StorageAccess>,)>(alloc, rest)?;
                Ok(access)
            }
        }
    }
}

/// The JSON form of an address space.
pub struct SpaceForm;

impl Form for SpaceForm {
    type Item = AddressSpace;

    ghost Plain = { AddressSpace };

    ghost view = { λ s. s };

    ghost form = { a_space };

    #[tactic(auto, unfolding(crate::specs::found::Types::space_of))]
    fn read(alloc: Global, value: &Value) -> Result<AddressSpace, ReadError> {
        match value.as_str() {
            Some(_) => read_word(value),
            None => {
                let access = StorageForm::read(alloc, value)?;
                Ok(AddressSpace::Storage { access })
            }
        }
    }
}

/// The JSON form of an array size.
pub struct ArraySizeForm;

impl Form for ArraySizeForm {
    type Item = ArraySize;

    ghost Plain = { ArraySize };

    ghost view = { λ s. s };

    ghost form = { an_array_size };

    #[tactic(auto, unfolding(crate::specs::found::Types::array_size_with))]
    fn read(alloc: Global, value: &Value) -> Result<ArraySize, ReadError> {
        let (kind, rest) = read_tag(value)?;
        match kind {
            SizeKind::Constant => {
                let (count,) = read_items::<(Positive,)>(alloc, rest)?;
                Ok(ArraySize::Constant(count))
            }
            SizeKind::Pending => {
                let (length,) = read_items::<(At<key::Override>,)>(alloc, rest)?;
                Ok(ArraySize::Pending(length))
            }
            SizeKind::Dynamic => {
                read_items::<End>(alloc, rest)?;
                Ok(ArraySize::Dynamic)
            }
        }
    }
}

/// The JSON form of an image class.
pub struct ClassForm;

impl Form for ClassForm {
    type Item = ImageClass;

    ghost Plain = { ImageClass };

    ghost view = { λ c. c };

    ghost form = { a_class };

    #[tactic(auto, unfolding(crate::specs::found::Types::class_with))]
    fn read(alloc: Global, value: &Value) -> Result<ImageClass, ReadError> {
        let (kind, rest) = read_tag(value)?;
        match kind {
            ClassKind::Sampled => {
                let (kind, multi) = read_items::<(WordOf<ScalarKind>, Truth)>(alloc, rest)?;
                Ok(ImageClass::Sampled { kind, multi })
            }
            ClassKind::Depth => {
                let (multi,) = read_items::<(Truth,)>(alloc, rest)?;
                Ok(ImageClass::Depth { multi })
            }
            ClassKind::External => {
                read_items::<End>(alloc, rest)?;
                Ok(ImageClass::External)
            }
            ClassKind::Storage => {
                let (format, access) = read_items::<StorageRow>(alloc, rest)?;
                Ok(ImageClass::Storage { format, access })
            }
        }
    }
}

type StorageRow = (WordOf<StorageFormat>, SetOf<StorageAccess>);
