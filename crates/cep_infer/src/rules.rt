// The rules of a text.
ghost use Rattle.std.specs.Prelude.{◌≡◌, ◌++◌, map, IfOk};
ghost use Rattle.std.specs.List.{AllByRecursion, AllZip};
ghost use Rattle.cep_parse.specs.Raw.{atoms_of};
ghost use Rattle.cep_source.specs.declared.space.Space.TheVariants as space;
ghost use Rattle.cep_source.specs.Items.{rules_of};
ghost use Rattle.cep_source.specs.Spaces.{names_in};
ghost use Rattle.cep_source.specs.Kept.{rule_item};
ghost use Rattle.cep_source.specs.Met.{none_met};
ghost use Rattle.cep_types.specs.Met.{AreMet};
ghost use Rattle.cep_types.specs.Sites.{rule_scope};
ghost use Rattle.cep_base.specs.FirstNames.{names_among};
ghost use Rattle.cep_infer.specs.Built.{AreSidesBuilt};
ghost use Rattle.cep_infer.specs.Meaning.{IsRuleBy, stage_named, group_of, next_of};
ghost use Rattle.cep_infer.specs.Shapes.{IsFilled, AreFilled, AreCovered};
ghost use Rattle.cep_infer.specs.Resolved.{IsWellNamed};

use crate::atoms::read_side;
use crate::left::{LeftSide, read_left};
use cep_base::Name;
use cep_parse::{RawElem, RawRule, Span};
use cep_rule::{AtomList, Rule, Rules};
use cep_source::{RuleRef, Source, Space, Variables};
use cep_types::{number, rule_variables, variable_kinds};
use std::alloc::AllocError;

// The number of the first stage that a side names, and 0 where it names none.
fn stage_named(source: &Source, side: &[RawElem]) -> Result<u32, AllocError>
    ensures { IfOk result (λ stage. stage ≡ stage_named source.now side.now) }
{
    for elem in side {
        if let RawElem::Stage(name) = elem {
            return number(source, Space::Stages, *name);
        }
    }
    Ok(0)
}

// The group of a rule.
fn group(source: &Source, home: Option<Span>, left: &[RawElem]) -> Result<u32, AllocError>
    ensures { IfOk result (λ group. group ≡ group_of source.now home left.now) }
{
    // No memory holds so many stages that a group has no number.
    match home {
        Some(stage) => number(source, Space::Stages, stage)?
            .checked_mul(2)
            .ok_or(AllocError),
        None => {
            let even = stage_named(source, left)?.checked_mul(2).ok_or(AllocError)?;
            even.checked_add(1).ok_or(AllocError)
        }
    }
}

// The next stage of a rule that leaves one.
fn next(source: &Source, home: Option<Span>, right: &[RawElem]) -> Result<Option<u32>, AllocError>
    ensures { IfOk result (λ next. next ≡ next_of source.now home right.now) }
{
    match home {
        Some(_) => Ok(None),
        None => Ok(Some(stage_named(source, right)?)),
    }
}

// What stands on the sides of a rule.
#[derive(Drop)]
struct Sides {
    left: LeftSide,
    right: AtomList,
}

#[tactic(auto, using(crate::proofs::RulesInTurn::parts_all, crate::proofs::RulesInTurn::all_rest))]
fn read_sides(source: &Source, variables: &Variables, rule: &RawRule) -> Result<Sides, AllocError>
    requires { AllByRecursion IsFilled (atoms_of rule.now.left ++ atoms_of rule.now.right) }
    ensures { IfOk result (λ sides. AreSidesBuilt source.now
        (names_among variables.now.firsts) rule.now sides) }
{
    let mut blanks = 0;
    let left = read_left(source, variables, rule.left.as_slice(), &mut blanks)?;
    Ok(Sides {
        right: read_side(source, variables, rule.right.as_slice(), blanks)?,
        left,
    })
}

// The rule that has these variables.
fn rule_over(
    source: &Source,
    variables: &Variables,
    name: &[u8],
    item: &RuleRef,
) -> Result<Rule, AllocError>
    requires met { AreMet source.now (rule_scope (rule_item item.now)) none_met variables.now }
    requires filled { AllByRecursion IsFilled (rule_scope (rule_item item.now)) }
    requires covered { AreCovered source.now (rule_scope (rule_item item.now)) }
    ensures rule { IfOk result (λ rule. IsRuleBy source.now (rule_item item.now) rule) }
    ensures name { IfOk result (λ rule. rule.name ≡ name.now) }
{
    let group = group(source, item.home, item.raw.left.as_slice())?;
    let next = next(source, item.home, item.raw.right.as_slice())?;
    let name = Name::new(source.alloc(), name)?;
    let vars = variables.firsts.names(source.alloc())?;
    let kinds = variable_kinds(source, variables)?;
    let Sides { left, right } = read_sides(source, variables, item.raw)?;
    Ok(Rule {
        group,
        next,
        name,
        vars,
        kinds,
        right,
        premises: left.premises,
        backs: left.backs,
    })
}

fn rule(source: &Source, name: &[u8], item: &RuleRef) -> Result<Rule, AllocError>
    requires filled { AllByRecursion IsFilled (rule_scope (rule_item item.now)) }
    requires covered { AreCovered source.now (rule_scope (rule_item item.now)) }
    ensures rule { IfOk result (λ rule. IsRuleBy source.now (rule_item item.now) rule) }
    ensures name { IfOk result (λ rule. rule.name ≡ name.now) }
{
    let variables = rule_variables(source, item.raw)?;
    rule_over(source, &variables, name, item)
}

// The rules in written order.
#[tactic(auto, using(crate::proofs::RulesInTurn::rule_terms))]
pub(crate) fn read_rules(source: &Source) -> Result<Rules, AllocError>
    requires named { IsWellNamed source.now }
    requires filled { AreFilled source.now }
    ensures rules { IfOk result (λ rules.
        AllZip (IsRuleBy source.now) (rules_of source.now) rules) }
    ensures names { IfOk result (λ rules. map (λ rule. rule.name) rules
        ≡ map (λ named. named.name) (names_in source.now space.Rules)) }
{
    let items = source.rules();
    let names = source.rule_names();
    let mut rules = Rules::new(source.alloc());
    for i in 0..items.len() {
        let rule = rule(source, names[i].bytes(), &items[i])?;
        rules.push(rule)?;
    }
    Ok(rules)
}
