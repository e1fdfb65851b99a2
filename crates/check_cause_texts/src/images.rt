//! The text for a broken rule of an image expression.

use crate::causes::Types;
use crate::types::word_of;
use check_causes::{
    DetailCause, EdgeCause, LoadCause, NumberCause, PlaceCause, QueryCause, SampleCause,
    SamplerCause, TexelCause, TexelsCause,
};
use std::fmt;
use typing_forms::Form;

// An operand that is not an image.
fn write_no_image<W: fmt::Write>(
    f: &mut fmt::Formatter<W>,
    types: Types<'_>,
    given: &Form,
) -> fmt::Result {
    write!(
        f,
        "the operand must be an image, and it is {}",
        types.text(given)
    )
}

// An optional integer operand: its name, and the kind of image that requires it.
fn write_number<W: fmt::Write>(
    f: &mut fmt::Formatter<W>,
    types: Types<'_>,
    cause: &NumberCause,
    what: &str,
    image: &str,
) -> fmt::Result {
    match cause {
        NumberCause::Missing => write!(f, "{what} is missing, because the image {image}"),
        NumberCause::Unwanted => {
            write!(
                f,
                "{what} is given, and there must be none unless the image {image}"
            )
        }
        NumberCause::NoInteger(given) => {
            write!(
                f,
                "{what} must be an integer scalar, and it is {}",
                types.text(given)
            )
        }
    }
}

fn write_layer<W: fmt::Write>(
    f: &mut fmt::Formatter<W>,
    types: Types<'_>,
    cause: &NumberCause,
) -> fmt::Result {
    write_number(f, types, cause, "an array index", "is arrayed")
}

// A value of the wrong type.
fn write_wanted<W: fmt::Write>(
    f: &mut fmt::Formatter<W>,
    types: Types<'_>,
    what: &str,
    given: &Form,
    wanted: &Form,
) -> fmt::Result {
    write!(
        f,
        "{what} must be {}, and it is {}",
        types.text(wanted),
        types.text(given)
    )
}

// ---- loads and queries

fn write_texel<W: fmt::Write>(
    f: &mut fmt::Formatter<W>,
    types: Types<'_>,
    cause: &TexelCause,
) -> fmt::Result {
    match cause {
        TexelCause::Cube => write!(
            f,
            "texels of a cube cannot be loaded, because they have no number each way"
        ),
        TexelCause::NoInteger(given) => {
            write!(
                f,
                "the coordinate must be of integers, and it is {}",
                types.text(given)
            )
        }
        TexelCause::Coordinate(given, wanted) => {
            write_wanted(f, types, "the coordinate in this image", given, wanted)
        }
    }
}

pub(crate) fn write_load<W: fmt::Write>(
    f: &mut fmt::Formatter<W>,
    types: Types<'_>,
    cause: &LoadCause,
) -> fmt::Result {
    match cause {
        LoadCause::NoImage(given) => write_no_image(f, types, given),
        LoadCause::Texel(cause) => write_texel(f, types, cause),
        LoadCause::Layer(cause) => write_layer(f, types, cause),
        LoadCause::Sample(cause) => {
            write_number(f, types, cause, "a sample index", "is multisampled")
        }
        LoadCause::Level(cause) => write_number(f, types, cause, "a level", "has mip levels"),
        LoadCause::NoLoad => write!(f, "the access of the storage image lacks LOAD"),
    }
}

pub(crate) fn write_query<W: fmt::Write>(
    f: &mut fmt::Formatter<W>,
    types: Types<'_>,
    cause: &QueryCause,
) -> fmt::Result {
    match cause {
        QueryCause::NoImage(given) => write_no_image(f, types, given),
        QueryCause::NoLevels => write!(f, "the image must have mip levels, and it has none"),
        QueryCause::Level(given) => {
            write!(
                f,
                "the level must be an integer scalar, and it is {}",
                types.text(given)
            )
        }
        QueryCause::NoLayers => write!(f, "the image must be arrayed, and it is not"),
        QueryCause::NoSamples => write!(f, "the image must be multisampled, and it is not"),
    }
}

// ---- samples

fn write_sampler<W: fmt::Write>(
    f: &mut fmt::Formatter<W>,
    types: Types<'_>,
    cause: &SamplerCause,
) -> fmt::Result {
    match cause {
        SamplerCause::NoSampler(given) => {
            write!(
                f,
                "the second operand must be a sampler, and it is {}",
                types.text(given)
            )
        }
        SamplerCause::Comparison { compares: true } => write!(
            f,
            "a comparison sampler needs a depth reference, and none is given"
        ),
        SamplerCause::Comparison { compares: false } => write!(
            f,
            "a depth reference needs a comparison sampler, and this one does not compare"
        ),
        SamplerCause::Reference(given) => {
            write!(
                f,
                "the depth reference must be f32, and it is {}",
                types.text(given)
            )
        }
        SamplerCause::NoDepth => {
            write!(
                f,
                "a depth reference needs a depth image, and this one is not"
            )
        }
    }
}

fn write_texels<W: fmt::Write>(f: &mut fmt::Formatter<W>, cause: &TexelsCause) -> fmt::Result {
    match cause {
        TexelsCause::Multisampled => write!(
            f,
            "a multisampled image cannot be sampled; its texels can be loaded"
        ),
        TexelsCause::Unfiltered(kind) => write!(
            f,
            "only images of Float are sampled, because others are not filtered; this one is of {}",
            word_of(*kind)
        ),
    }
}

fn write_place<W: fmt::Write>(
    f: &mut fmt::Formatter<W>,
    types: Types<'_>,
    cause: &PlaceCause,
) -> fmt::Result {
    match cause {
        PlaceCause::Coordinate(given, wanted) => {
            write_wanted(f, types, "the coordinate in this image", given, wanted)
        }
        PlaceCause::Layer(cause) => write_layer(f, types, cause),
        PlaceCause::Varying => write!(f, "the offset must be a const-expression"),
        PlaceCause::Offset(given, wanted) => {
            write_wanted(f, types, "the offset in this image", given, wanted)
        }
        PlaceCause::Cube => write!(f, "a sample of a cube cannot have an offset"),
    }
}

fn write_detail<W: fmt::Write>(
    f: &mut fmt::Formatter<W>,
    types: Types<'_>,
    cause: &DetailCause,
) -> fmt::Result {
    match cause {
        DetailCause::Neighbours(dim) => write!(
            f,
            "a gather needs an image of dimension D2 or Cube, and this one has {}",
            word_of(*dim)
        ),
        DetailCause::GatherLevel => write!(f, "a gather must be at level Zero"),
        DetailCause::GatherDepth(letter) => write!(
            f,
            "a gather of depths takes component X, because there is no other; this one takes {}",
            word_of(*letter)
        ),
        DetailCause::Exact(given) => write!(
            f,
            "the level must be f32, or an integer scalar where the image is a depth image, and it is {}",
            types.text(given)
        ),
        DetailCause::Bias(given) => {
            write!(f, "the bias must be f32, and it is {}", types.text(given))
        }
        DetailCause::Gradient(given, wanted) => write!(
            f,
            "a gradient must have the type of the coordinate, {}, and it is {}",
            types.text(wanted),
            types.text(given)
        ),
    }
}

fn write_edge<W: fmt::Write>(f: &mut fmt::Formatter<W>, cause: &EdgeCause) -> fmt::Result {
    let text = match cause {
        EdgeCause::Clamped => {
            "the coordinate can be clamped to the edge only in external images and in D2 images of Float that are not arrayed"
        }
        EdgeCause::Unclamped => {
            "the coordinate in an external image must be clamped to the edge"
        }
        EdgeCause::Level => "an external image must be sampled at level Zero",
        EdgeCause::Gathered => "an external image cannot be gathered",
        EdgeCause::Offset => "a sample of an external image cannot have an offset",
    };
    write!(f, "{text}")
}

pub(crate) fn write_sample<W: fmt::Write>(
    f: &mut fmt::Formatter<W>,
    types: Types<'_>,
    cause: &SampleCause,
) -> fmt::Result {
    match cause {
        SampleCause::NoImage(given) => write_no_image(f, types, given),
        SampleCause::Sampler(cause) => write_sampler(f, types, cause),
        SampleCause::Texels(cause) => write_texels(f, cause),
        SampleCause::Place(cause) => write_place(f, types, cause),
        SampleCause::Detail(cause) => write_detail(f, types, cause),
        SampleCause::Edge(cause) => write_edge(f, cause),
    }
}
