// Writes expressions and statements on images.

use crate::writer::Writer;
use ir_arena::handle::Handle;
use ir_blocks::Statement;
use ir_types::{Expression, ImageQuery, SampleLevel, key};

type E = Handle<key::Expression>;

impl Writer {
    /// Writes an image sample.
    pub fn sample(&mut self, expression: &Expression) {
        let Expression::ImageSample {
            image,
            sampler,
            gather,
            coordinate,
            array_index,
            offset,
            level,
            depth_ref,
            clamp_to_edge,
        } = *expression
        else {
            return;
        };
        self.two("ImageSample", image, sampler);
        self.maybe_word(gather);
        self.handle(coordinate);
        self.maybe(array_index);
        self.maybe(offset);
        self.level(level);
        self.maybe(depth_ref);
        self.truth(clamp_to_edge);
    }

    fn level(&mut self, level: SampleLevel) {
        self.open();
        match level {
            SampleLevel::Auto => self.word("Auto"),
            SampleLevel::Zero => self.word("Zero"),
            SampleLevel::Exact(value) => self.one("Exact", value),
            SampleLevel::Bias(value) => self.one("Bias", value),
            SampleLevel::Gradient { x, y } => self.two("Gradient", x, y),
        }
        self.close();
    }

    /// Writes an image load.
    pub fn texel(&mut self, expression: &Expression) {
        let Expression::ImageLoad {
            image,
            coordinate,
            array_index,
            sample,
            level,
        } = *expression
        else {
            return;
        };
        self.two("ImageLoad", image, coordinate);
        self.maybe(array_index);
        self.maybe(sample);
        self.maybe(level);
    }

    /// Writes an image query.
    pub fn query(&mut self, image: E, query: ImageQuery) {
        self.one("ImageQuery", image);
        self.open();
        match query {
            ImageQuery::Size { level } => {
                self.word("Size");
                self.maybe(level);
            }
            ImageQuery::NumLevels => self.word("NumLevels"),
            ImageQuery::NumLayers => self.word("NumLayers"),
            ImageQuery::NumSamples => self.word("NumSamples"),
        }
        self.close();
    }

    /// Writes an image store.
    pub fn image_store(&mut self, statement: &Statement) {
        let Statement::ImageStore {
            image,
            coordinate,
            array_index,
            value,
        } = *statement
        else {
            return;
        };
        self.two("ImageStore", image, coordinate);
        self.maybe(array_index);
        self.handle(value);
    }

    /// Writes an image atomic.
    pub fn image_atomic(&mut self, statement: &Statement) {
        let Statement::ImageAtomic {
            image,
            coordinate,
            array_index,
            fun,
            value,
        } = *statement
        else {
            return;
        };
        self.two("ImageAtomic", image, coordinate);
        self.maybe(array_index);
        self.atomic_function(fun);
        self.handle(value);
    }
}
