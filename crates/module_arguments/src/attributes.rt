//! Arguments under names of the caller's own.
ghost use Rattle.bz_text.specs.Answers.{Gives};
ghost use Rattle.module_arguments.specs.Attributes as spec;
ghost use Rattle.module_arguments.specs.Attributes.{attribute_of, attributes_in};
ghost use Rattle.module_values.specs.PlainValues.{plain_of};

use crate::arguments::is_parameter;
use crate::objections::{Objection, object};
use crate::parameters::Parameter;
use bz_base::{Code, Named};
use bz_text::{May, Miss, Seq};
use module_values::plain_value;
use star_core::{Heap, NamedVal};
use std::alloc::Global;

/// The attributes of a call: its named arguments that are of no parameter.
pub fn read_attributes(
    alloc: Global,
    heap: &Heap,
    parameters: &[Parameter],
    named: &[NamedVal],
) -> May<Seq<Named>, Objection>
    ensures { Gives (attributes_in heap.now parameters.now named.now) result }
{
    let mut attributes = Vec::new(alloc);
    'reading: for argument in named {
        if !is_parameter(parameters, argument.name.as_str()) {
            match attribute(alloc, heap, argument) {
                Ok(one) => attributes.push(one)?,
                Err(miss) => return Err(miss),
            }
        }
    }
    Ok(Seq::of_vec(attributes))
}

fn attribute(alloc: Global, heap: &Heap, argument: &NamedVal) -> May<Named, Objection>
    ensures { Gives (attribute_of argument.now.name (plain_of heap.now argument.now.val)) result }
{
    match plain_value(alloc, heap, &argument.val) {
        Ok(value) => Ok(Named {
            name: argument.name.copy(alloc)?,
            value,
        }),
        Err(Miss::OutOfMemory) => Err(Miss::OutOfMemory),
        Err(Miss::Because(_)) => object(alloc, Code::BadValue, argument.name.as_str()),
    }
}
