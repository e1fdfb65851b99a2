// What decorations say of an id or of a member (section 3.20).

use crate::tables::{Demands, SubgroupMask, built_in, subgroup_mask};
use ir_flags::{Capabilities, StorageAccess};
use ir_kinds::{Binding, Interpolation, Sampling, ScalarKind};
use spirv_numbers::{numbers, ops};
use spirv_words::Listing;

/// What decorations say of an id or of a member.
#[derive(Clone, Copy)]
pub struct Decorated {
    /// The number of a built-in.
    pub built_in: Option<u32>,
    /// The location between stages.
    pub location: Option<u32>,
    /// The component of the location that is the first.
    pub component: Option<u32>,
    /// The source of a blend.
    pub index: Option<u32>,
    /// The group of a resource.
    pub set: Option<u32>,
    /// The binding of a resource.
    pub binding: Option<u32>,
    /// Where a member begins.
    pub offset: Option<u32>,
    /// From element to element of an array.
    pub array_stride: Option<u32>,
    /// From column to column of a matrix, or from row to row.
    pub matrix_stride: Option<u32>,
    /// The id of a specialization constant.
    pub spec_id: Option<u32>,
    /// It is a block.
    pub block: bool,
    /// It is a block in a storage buffer, as older modules say it.
    pub buffer_block: bool,
    /// Its matrices are stored row by row.
    pub row_major: bool,
    /// It is the same at each point of a primitive.
    pub flat: bool,
    /// It is found without perspective.
    pub linear: bool,
    /// It is found within the primitive.
    pub centroid: bool,
    /// It is found at each sample.
    pub sample: bool,
    /// It belongs to a primitive.
    pub per_primitive: bool,
    /// It is computed alike everywhere.
    pub invariant: bool,
    /// It is coherent.
    pub coherent: bool,
    /// It is volatile.
    pub volatile: bool,
    /// It is not written.
    pub non_writable: bool,
    /// It is not read.
    pub non_readable: bool,
}

impl Decorated {
    /// Nothing is said.
    pub const NOTHING: Decorated = Decorated {
        built_in: None,
        location: None,
        component: None,
        index: None,
        set: None,
        binding: None,
        offset: None,
        array_stride: None,
        matrix_stride: None,
        spec_id: None,
        block: false,
        buffer_block: false,
        row_major: false,
        flat: false,
        linear: false,
        centroid: false,
        sample: false,
        per_primitive: false,
        invariant: false,
        coherent: false,
        volatile: false,
        non_writable: false,
        non_readable: false,
    };

    /// What is said of an id, or of a member of its struct.
    pub fn of(listing: &Listing, id: u32, member: Option<u32>) -> Decorated {
        let mut all = Decorated::NOTHING;
        for place in listing.decorations(id, member) {
            let instruction = listing.at(*place);
            // a group decorates no member
            let after = if instruction.opcode == ops::MEMBER_DECORATE {
                2
            } else {
                1
            };
            let operands = listing.operands(&instruction);
            let Some(decoration) = operands.get(after) else {
                continue;
            };
            let value = operands.get(after + 1).copied();
            if !all.take_number(*decoration, value) {
                all.take_word(*decoration);
            }
        }
        all
    }

    // A decoration with a number.
    fn take_number(&mut self, decoration: u32, value: Option<u32>) -> bool {
        match decoration {
            numbers::DECORATION_BUILT_IN => self.built_in = value,
            numbers::DECORATION_LOCATION => self.location = value,
            numbers::DECORATION_COMPONENT => self.component = value,
            numbers::DECORATION_INDEX => self.index = value,
            numbers::DECORATION_DESCRIPTOR_SET => self.set = value,
            numbers::DECORATION_BINDING => self.binding = value,
            numbers::DECORATION_OFFSET => self.offset = value,
            numbers::DECORATION_ARRAY_STRIDE => self.array_stride = value,
            numbers::DECORATION_MATRIX_STRIDE => self.matrix_stride = value,
            numbers::DECORATION_SPEC_ID => self.spec_id = value,
            _ => return false,
        }
        true
    }

    // A decoration that is a word alone.
    fn take_word(&mut self, decoration: u32) {
        match decoration {
            numbers::DECORATION_BLOCK => self.block = true,
            numbers::DECORATION_BUFFER_BLOCK => self.buffer_block = true,
            numbers::DECORATION_ROW_MAJOR => self.row_major = true,
            numbers::DECORATION_FLAT => self.flat = true,
            numbers::DECORATION_NO_PERSPECTIVE => self.linear = true,
            numbers::DECORATION_CENTROID => self.centroid = true,
            numbers::DECORATION_SAMPLE => self.sample = true,
            numbers::DECORATION_PER_PRIMITIVE_EXT => self.per_primitive = true,
            numbers::DECORATION_INVARIANT => self.invariant = true,
            numbers::DECORATION_COHERENT => self.coherent = true,
            numbers::DECORATION_VOLATILE => self.volatile = true,
            numbers::DECORATION_NON_WRITABLE => self.non_writable = true,
            numbers::DECORATION_NON_READABLE => self.non_readable = true,
            _ => {}
        }
    }

    /// How it may be accessed.
    pub fn access(&self) -> StorageAccess {
        let load = if self.non_readable {
            0
        } else {
            StorageAccess::LOAD.0
        };
        let store = if self.non_writable {
            0
        } else {
            StorageAccess::STORE.0
        };
        StorageAccess(load | store)
    }

    /// What binds it between stages: a built-in that the IR has, or a location.
    pub fn bound(&self, demands: &mut Demands) -> Option<Binding> {
        if let Some(number) = self.built_in {
            return Some(Binding::BuiltIn(built_in(number, self.invariant)?));
        }
        let location = self.location?;
        if self.sample {
            demands.ask(Capabilities::MULTISAMPLED_SHADING);
        }
        if self.index.is_some() {
            demands.ask(Capabilities::DUAL_SOURCE_BLENDING);
        }
        Some(Binding::Location {
            location,
            interpolation: self.interpolation(),
            sampling: self.sampling(),
            blend_src: self.index,
            per_primitive: self.per_primitive,
        })
    }

    fn interpolation(&self) -> Option<Interpolation> {
        if self.flat {
            Some(Interpolation::Flat)
        } else if self.linear {
            Some(Interpolation::Linear)
        } else {
            None
        }
    }

    fn sampling(&self) -> Option<Sampling> {
        if self.centroid {
            Some(Sampling::Centroid)
        } else if self.sample {
            Some(Sampling::Sample)
        } else {
            None
        }
    }

    /// Which mask of a subgroup's invocations it is.
    pub fn mask(&self) -> Option<SubgroupMask> {
        subgroup_mask(self.built_in?)
    }

    /// The number of a built-in that the IR does not have.
    pub fn foreign_built_in(&self) -> Option<u32> {
        let number = self.built_in?;
        match built_in(number, false) {
            Some(_) => None,
            None => Some(number),
        }
    }
}

/// The binding, with the interpolation of a value of scalars of this kind where none is said.
pub fn with_default(binding: Option<Binding>, kind: Option<ScalarKind>) -> Option<Binding> {
    match binding {
        Some(
            Binding::Location {
                location,
                interpolation: None,
                sampling,
                blend_src,
                per_primitive,
            },
        ) => Some(Binding::Location {
            location,
            interpolation: match kind {
                Some(ScalarKind::Float) => Some(Interpolation::Perspective),
                Some(ScalarKind::Sint | ScalarKind::Uint) => Some(Interpolation::Flat),
                _ => None,
            },
            sampling,
            blend_src,
            per_primitive,
        }),
        other => other,
    }
}
