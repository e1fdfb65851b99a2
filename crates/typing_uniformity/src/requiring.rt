//! Look-ups of uniformity facts.

ghost use Rattle.std.specs.Prelude.{◌≡◌, is_some, option_map, slice_get};
ghost use Rattle.spec_expressions.specs.found.Found.{where_disrupted};
ghost use Rattle.typing_uniformity.specs.Requiring.{varies_of, look_of, required_with, required_from, required_view};

use crate::body_fault::NonUniform;
use ir_arena::handle::Handle;
use ir_items::key;
use spec_expressions::Uniformity;
use typing_errors::UniformityDisruptor;

// The uniformity of each expression, and for each the first one from it on that has a
// requirement.
#[derive(Drop)]
pub(crate) struct Requiring<'a> {
    pub(crate) uniformities: &'a [Uniformity],
    pub(crate) next: &'a [usize],
}

impl Requiring<'_> {
    // The cause of non-uniform control flow of a branch on a value.
    pub(crate) fn choice(&self, value: Handle<key::Expression>) -> Option<UniformityDisruptor>
        ensures { is_some result ≡ varies_of self.now.uniformities.now value }
    {
        match self.uniformities.get(value.index()) {
            Some(uniformity) => match uniformity.non_uniform_result {
                Some(source) => Some(UniformityDisruptor::Expression(source)),
                None => None,
            },
            None => None,
        }
    }

    // The fault of an expression with a requirement, if it comes before the bound.
    fn required_at(
        &self,
        place: usize,
        end: u32,
        disruptor: UniformityDisruptor,
    ) -> Option<NonUniform>
        ensures { option_map required_view result ≡ required_with end place (slice_get self.now.uniformities.now place) }
    {
        match self.uniformities.get(place) {
            Some(uniformity) => {
                if place < end as usize {
                    Some(NonUniform {
                        requirements: uniformity.requirements,
                        expression: Handle::at(place),
                        disruptor,
                    })
                } else {
                    None
                }
            }
            None => None,
        }
    }

    // The fault of the first expression of a range with a requirement, in non-uniform control flow.
    pub(crate) fn emitted(
        &self,
        first: u32,
        end: u32,
        disruptor: &Option<UniformityDisruptor>,
    ) -> Option<NonUniform>
        ensures { option_map required_view result ≡ where_disrupted (is_some disruptor.now) (look_of self.now.uniformities.now self.now.next.now first end) }
    {
        match disruptor {
            Some(disruptor) => match self.next.get(first as usize) {
                Some(place) => self.required_at(*place, end, *disruptor),
                None => None,
            },
            None => None,
        }
    }
}
