//! The functions of an image by their names.
ghost use Rattle.std.specs.Prelude.{◌≡◌, IfOk, OnOk};
ghost use Rattle.cc_check.specs.Findings.{number_of};
ghost use Rattle.cc_check.specs.Memory.{number_in, with_name};

use c25_isa::Image;
use std::alloc::Global;
use std::collections::HashMap;
use word_base::NoMemory;

/// The number of the first function of each name.
#[derive(Drop)]
pub(crate) struct Numbers<'a> {
    numbers: HashMap<&'a str, u16>,
}

impl<'a> Numbers<'a> {
    /// Those of the functions of an image.
    pub(crate) fn of(alloc: Global, image: &'a Image) -> Result<Self, NoMemory>
        ensures { IfOk result (λ t. number_in t.numbers ≡ number_of image.now.functions) }
    {
        let functions = image.functions();
        // Each has a word.
        let few = functions.len() <= image.words().len();
        prove!(few);
        let mut numbers = HashMap::new(alloc);
        for (index, function) in functions.iter().enumerate() {
            note_name(&mut numbers, function.name.as_str(), index as u16)?;
        }
        Ok(Numbers { numbers })
    }

    pub(crate) fn number(&self, name: &str) -> Option<u16>
        ensures { result ≡ number_in self.now.numbers name.now }
    {
        self.numbers.get(name).copied()
    }
}

// A name has its number, unless a function before has the name.
fn note_name<'a>(
    numbers: &mut HashMap<&'a str, u16>,
    name: &'a str,
    number: u16,
) -> Result<(), NoMemory>
    ensures { OnOk result (number_in numbers.new ≡ with_name name.now number (number_in numbers.old)) }
{
    if !numbers.contains_key(name) {
        numbers.insert(name, number)?;
    }
    Ok(())
}
