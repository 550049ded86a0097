//! Rules, asked in their order.

ghost use Rattle.pan_tree.specs.Check.{broken};
ghost use Rattle.pan_shapes.specs.Answers.{IsAnswer};

use crate::error::CheckError;
use pan_tree::Rule;

/// Refuses the part at this place for the first of the rules that it breaks, if it breaks any.
pub fn refuse(place: u32, rules: &[(Rule, bool)]) -> Result<(), CheckError>
    ensures { IsAnswer (broken place rules.now) (λ _. Unit {0}) result }
{
    for (rule, is_broken) in rules {
        if *is_broken {
            return Err(CheckError::Breaks { rule: *rule, place });
        }
    }
    Ok(())
}
