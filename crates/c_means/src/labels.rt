//! Where a switch starts to run: ISO 9899:1990 6.6.4.2.
ghost use Rattle.std.specs.Prelude.{◌≡◌};
ghost use Rattle.c_means.specs.Labels as labels;
ghost use Rattle.c_means.specs.Labels.{IsStart};

use c_tree::Choice;

/// The place of the first case of a word, else of the default, else the end.
pub(crate) fn start_of(choices: &[Choice], word: u16) -> usize
    ensures { IsStart choices.now word result }
{
    match choices.iter().position(|choice| is_case(choice, word)) {
        Some(place) => place,
        None => match choices.iter().position(is_default) {
            Some(place) => place,
            None => choices.len(),
        },
    }
}

fn is_case(choice: &Choice, word: u16) -> bool
    ensures { result ≡ labels.is_case word choice.now }
{
    match choice {
        Choice::Case(label) => word == *label,
        Choice::Default | Choice::Body(_) => false,
    }
}

fn is_default(choice: &Choice) -> bool
    ensures { result ≡ labels.is_default choice.now }
{
    match choice {
        Choice::Default => true,
        Choice::Case(_) | Choice::Body(_) => false,
    }
}
