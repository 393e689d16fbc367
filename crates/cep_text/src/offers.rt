ghost use Rattle.std.specs.Prelude.{◌≡◌, ◌++◌, length, OnOk, OnErr};
ghost use Rattle.std.specs.List.{AllByRecursion};
ghost use Rattle.cep_rule.specs.Shapes.{IsOfferOf};
ghost use Rattle.cep_term.specs.Tree.{tree_of};
ghost use Rattle.cep_text.specs.Texts.{given_text, all_given_text, offer_text, HasNames};
ghost use Rattle.cep_text.specs.Writing.{IsBegun};

use crate::terms::put_value;
use cep_base::{Name, Text};
use cep_rule::{Names, Offer, Program, Signature, Terms};
use cep_term::Term;
use std::alloc::AllocError;

/// Adds the text of an offer. After out of memory a prefix of it was added.
pub fn put_offer(program: &Program, offer: &Offer, out: &mut Text) -> Result<(), AllocError>
    requires { IsOfferOf program.now offer.now }
    ensures ok { OnOk result (out.new ≡ out.old ++ offer_text program.now offer.now) }
    ensures err { OnErr result (IsBegun out.old (offer_text program.now offer.now) out.new) }
{
    let parts = program.parts();
    let rule = parts.rules.get(offer.rule as usize);
    out.append(rule.name.bytes())?;
    put_values(&parts.signature, &rule.vars, &offer.values, out)
}

// Adds what each variable is given, in order.
pub(crate) fn put_values(
    signature: &Signature,
    vars: &Names,
    values: &Terms,
    out: &mut Text,
) -> Result<(), AllocError>
    requires as_many { length vars.now ≡ length values.now }
    requires declared { AllByRecursion (HasNames signature.now.cons) values.now }
    ensures ok { OnOk result (out.new
        ≡ out.old ++ all_given_text signature.now vars.now values.now) }
    ensures err { OnErr result (IsBegun out.old
        (all_given_text signature.now vars.now values.now) out.new) }
{
    for i in 0..values.len() {
        put_given(signature, vars.get(i), values.get(i), out)?;
    }
    Ok(())
}

// Adds what one variable is given.
fn put_given(
    signature: &Signature,
    name: &Name,
    value: &Term,
    out: &mut Text,
) -> Result<(), AllocError>
    requires { HasNames signature.now.cons (tree_of value.now) }
    ensures ok { OnOk result (out.new
        ≡ out.old ++ given_text signature.now name.now (tree_of value.now)) }
    ensures err { OnErr result (IsBegun out.old
        (given_text signature.now name.now (tree_of value.now)) out.new) }
{
    out.append(b" ")?;
    out.append(name.bytes())?;
    out.append(b"=")?;
    put_value(signature, value, out)
}
