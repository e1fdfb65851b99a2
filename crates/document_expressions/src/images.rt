// The JSON forms of sample levels, image queries and swizzle patterns.
ghost use Rattle.std.specs.Prelude.{◌≡◌, List, option_map};
ghost use Rattle.ir_kinds.specs.declared.scalars.SwizzleComponent.{SwizzleComponent};
ghost use Rattle.ir_types.specs.declared.expressions.SampleLevel.{SampleLevel};
ghost use Rattle.ir_types.specs.declared.expressions.ImageQuery.{ImageQuery};
ghost use Rattle.document_expressions.specs.found.Expressions.{letter_in, next_letter, last_letter, pattern_in, a_level, a_query, a_pattern};

use crate::kinds::{LevelKind, QueryKind};
use document_forms::{At, End, Form, Maybe, ReadError, Wanted, read_items, read_tag};
use ir_kinds::SwizzleComponent;
use ir_types::{ImageQuery, SampleLevel, key};
use serde_json::Value;
use std::alloc::Global;

type E = At<key::Expression>;

/// The JSON form of a sample level.
pub struct LevelForm;

impl Form for LevelForm {
    type Item = SampleLevel;

    ghost Plain = { SampleLevel };

    ghost view = { λ l. l };

    ghost form = { a_level };

    #[tactic(auto, unfolding(crate::specs::found::Expressions::level_with))]
    fn read(alloc: Global, value: &Value) -> Result<SampleLevel, ReadError> {
        let (kind, rest) = read_tag(value)?;
        match kind {
            LevelKind::Auto => {
                read_items::<End>(alloc, rest)?;
                Ok(SampleLevel::Auto)
            }
            LevelKind::Zero => {
                read_items::<End>(alloc, rest)?;
                Ok(SampleLevel::Zero)
            }
            LevelKind::Exact => Ok(SampleLevel::Exact(read_items::<(E,)>(alloc, rest)?.0)),
            LevelKind::Bias => Ok(SampleLevel::Bias(read_items::<(E,)>(alloc, rest)?.0)),
            LevelKind::Gradient => {
                let (x, y) = read_items::<(E, E)>(alloc, rest)?;
                Ok(SampleLevel::Gradient { x, y })
            }
        }
    }
}

/// The JSON form of an image query.
pub struct QueryForm;

impl Form for QueryForm {
    type Item = ImageQuery;

    ghost Plain = { ImageQuery };

    ghost view = { λ q. q };

    ghost form = { a_query };

    #[tactic(auto, unfolding(crate::specs::found::Expressions::query_with))]
    fn read(alloc: Global, value: &Value) -> Result<ImageQuery, ReadError> {
        let (kind, rest) = read_tag(value)?;
        match kind {
            QueryKind::Size => {
                let (level,) = read_items::<(Maybe<E>,)>(alloc, rest)?;
                Ok(ImageQuery::Size { level })
            }
            QueryKind::NumLevels => {
                read_items::<End>(alloc, rest)?;
                Ok(ImageQuery::NumLevels)
            }
            QueryKind::NumLayers => {
                read_items::<End>(alloc, rest)?;
                Ok(ImageQuery::NumLayers)
            }
            QueryKind::NumSamples => {
                read_items::<End>(alloc, rest)?;
                Ok(ImageQuery::NumSamples)
            }
        }
    }
}

fn letter_in(code: u8) -> Option<SwizzleComponent>
    ensures { result ≡ letter_in code }
{
    if code == 120 {
        Some(SwizzleComponent::X)
    } else if code == 121 {
        Some(SwizzleComponent::Y)
    } else if code == 122 {
        Some(SwizzleComponent::Z)
    } else if code == 119 {
        Some(SwizzleComponent::W)
    } else {
        None
    }
}

fn next_letter(text: &[u8]) -> Option<(SwizzleComponent, &[u8])>
    ensures { option_map (λ t. (t.0, t.1.now)) result ≡ next_letter text.now }
{
    let (code, rest) = text.split_first()?;
    Some((letter_in(*code)?, rest))
}

fn last_letter(text: &[u8]) -> Option<SwizzleComponent>
    ensures { result ≡ last_letter text.now }
{
    if text.len() == 1 {
        letter_in(text[0])
    } else {
        None
    }
}

#[tactic(auto, unfolding(crate::specs::found::Expressions::pattern_in))]
fn pattern_in(text: &[u8]) -> Option<[SwizzleComponent; 4]>
    ensures { result ≡ pattern_in text.now }
{
    let (a, rest) = next_letter(text)?;
    let (b, rest) = next_letter(rest)?;
    let (c, rest) = next_letter(rest)?;
    let d = last_letter(rest)?;
    Some([a, b, c, d])
}

/// The JSON form of a swizzle pattern: a string of four of the letters x, y, z and w.
pub struct PatternForm;

impl Form for PatternForm {
    type Item = [SwizzleComponent; 4];

    ghost Plain = { List SwizzleComponent };

    ghost view = { λ p. p };

    ghost form = { a_pattern };

    fn read(_alloc: Global, value: &Value) -> Result<[SwizzleComponent; 4], ReadError> {
        let Some(text) = value.as_str() else {
            return Err(ReadError::here(Wanted::Letters));
        };
        pattern_in(text.as_bytes()).ok_or(ReadError::here(Wanted::Letters))
    }
}
