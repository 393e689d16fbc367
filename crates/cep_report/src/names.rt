// The names of predicates and rules.
ghost use Rattle.std.specs.Prelude.{◌≡◌, slice_get};
ghost use Rattle.cep_text.specs.Texts.{pred_name, offer_name};

use cep_rule::Program;

// The name of a predicate.
pub(crate) fn predicate_name(program: &Program, pred: u32) -> &[u8]
    ensures { result.now ≡ pred_name (slice_get program.now.signature.preds pred) }
{
    match program
        .parts()
        .signature
        .preds
        .as_slice()
        .get(pred as usize)
    {
        Some(decl) => decl.name.bytes(),
        None => b"",
    }
}

// The name of a rule.
pub(crate) fn rule_name(program: &Program, rule: u32) -> &[u8]
    ensures { result.now ≡ offer_name (slice_get program.now.rules rule) }
{
    match program.parts().rules.as_slice().get(rule as usize) {
        Some(rule) => rule.name.bytes(),
        None => b"",
    }
}
