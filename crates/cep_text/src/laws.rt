//! Laws of canonical texts, for the crates that rest on them. Each function does nothing, and its
//! contract is the law.
ghost use Rattle.std.specs.Prelude.{◌≡◌};
ghost use Rattle.cep_term.specs.Tree.{Tree, AtomTree};
ghost use Rattle.cep_rule.specs.declared.parts.Parts.{Parts};
ghost use Rattle.cep_rule.specs.declared.offer.Offer.{Offer};
ghost use Rattle.cep_rule.specs.Derivations.{ProofTree};
ghost use Rattle.cep_rule.specs.Program.{IsProgram};
ghost use Rattle.cep_rule.specs.Shapes.{IsOfferOf, IsProofOf};
ghost use Rattle.cep_text.specs.Texts.{term_text, atom_text, offer_text, proof_text, IsGroundTerm, IsTypedGround};

/// No text is the text of two values: of two well-typed ground terms, two such atoms, two offers,
/// or two derivations.
pub fn one_value()
    ensures terms { (program : Parts) (one other : Tree)
        → IsProgram program
        → IsGroundTerm program.signature one
        → IsGroundTerm program.signature other
        → term_text program.signature one ≡ term_text program.signature other
        → one ≡ other }
    ensures atoms { (program : Parts) (one other : AtomTree)
        → IsProgram program
        → IsTypedGround program.signature one
        → IsTypedGround program.signature other
        → atom_text program.signature one ≡ atom_text program.signature other
        → one ≡ other }
    ensures offers { (program : Parts) (one other : Offer)
        → IsProgram program
        → IsOfferOf program one
        → IsOfferOf program other
        → offer_text program one ≡ offer_text program other
        → one ≡ other }
    ensures derivations { (program : Parts) (one other : ProofTree)
        → IsProgram program
        → IsProofOf program one
        → IsProofOf program other
        → proof_text program one ≡ proof_text program other
        → one ≡ other }
{}
