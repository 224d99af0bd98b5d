// A rule that passed its check.
ghost use Rattle.std.specs.Prelude.{◌≡◌, IfOk, IfErr};
ghost use Rattle.meaning.specs.Answers.{given};
ghost use Rattle.meaning.specs.Calls.{refusal_says};
ghost use Rattle.rule.specs.Says.{RuleOf, check_answer};

use crate::Rule;
use meaning::Refusal;

// The bytes of a file that the rule check accepts, and its rule's numbers. Whoever is handed one need not check again.
#[derive(Clone, Copy)]
pub struct CheckedRule<'a> {
    pub file: &'a [u8],
    pub rule: Rule,
    pub ghost accepted: { RuleOf file.now rule },
}

impl<'a> CheckedRule<'a> {
    pub fn of_file(file: &'a [u8]) -> Result<Self, Refusal>
        ensures accepts { IfOk result (λ checked. (checked.file.now ≡ file.now) × (check_answer file.now ≡ given checked.rule)) }
        ensures refuses { IfErr result (λ refusal. check_answer file.now ≡ refusal_says refusal) }
    {
        let rule = Rule::of_file(file)?;
        Ok(CheckedRule { file, rule })
    }
}
