//! Laws of operations, each the contract of a function without parameters that does nothing.
ghost use Rattle.lnt_ops.specs.Laws.{AllowedOpsAreSpelled, OneProgram};

/// Under one header no operation's bytes are a prefix of another's, and bytes encode at most one operation (DWARF 5,
/// section 6.2.5). A whole program encodes at most one list of operations.
#[tactic(auto, using(crate::proofs::OpLaws::one_program))]
pub fn one_program()
    ensures { OneProgram }
{}

/// Operations have an encoding exactly when the header admits them (DWARF 5, section 6.2.5).
#[tactic(auto, using(crate::proofs::SpelledOps::allowed_ops_are_spelled))]
pub fn allowed_ops_are_spelled()
    ensures { AllowedOpsAreSpelled }
{
    lnt_wire::laws::spelled_values();
}
