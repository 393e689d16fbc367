ghost use Rattle.std.specs.Prelude.{◌≡◌};
ghost use Rattle.cep_rule.specs.Program.{IsProgram};

use crate::parts::Parts;
use std::marker::Model;

/// A program that can be played: parts that keep what `IsProgram` says. The limits, the names, the
/// groundness, the sizes and the facts among this are this profile's; that atoms are well typed,
/// that backward predicates and those of states do not mix, and that each variable of a right side
/// occurs on the left, are Ceptre's.
#[derive(Drop)]
pub struct Program {
    parts: Parts,
}

impl Model for Program {
    ghost use Rattle.cep_rule.specs.declared.parts.Parts.{Parts};
    ghost use Rattle.cep_rule.specs.contracts.parts.Parts as of_parts;

    ghost Value = { Parts };

    ghost coded = { of_parts.the_row.coded };

    ghost use Rattle.cep_rule.specs.Program.{IsProgram};

    ghost view = { λ program. program.parts };

    ghost invariant = { λ program. IsProgram program.parts };
}

impl Program {
    /// The program of these parts. It takes no memory.
    pub fn seal(parts: Parts) -> Program
        requires { IsProgram parts }
        ensures { result ≡ parts }
    {
        Program { parts }
    }

    /// The parts that it was made of, which keep what was asked of them. It takes no memory.
    pub fn parts(&self) -> &Parts
        ensures parts { result.now ≡ self.now }
        ensures kept { IsProgram self.now }
    {
        &self.parts
    }
}
