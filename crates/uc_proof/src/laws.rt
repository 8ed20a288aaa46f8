//! Laws over the definitions, each the contract of a function that does nothing.

ghost use Rattle.std.specs.Prelude.{◌≡◌, ℕ, List, length};
ghost use Rattle.uc_term.specs.Table.{Table};
ghost use Rattle.uc_check.specs.declared.proof.Line.{Line};
ghost use Rattle.uc_check.specs.Checks.{AreRightBefore, EndsInRefutation};
ghost use Rattle.uc_tstp.specs.Printable.{AreInOrder, ArePrintableLines};
ghost use Rattle.uc_fact.specs.declared.chain.Chain.{Chain};
ghost use Rattle.uc_fact.specs.declared.fact.Fact.{Fact};
ghost use Rattle.uc_problem.specs.declared.problem.Problem.{Problem};
ghost use Rattle.uc_problem.specs.declared.problem.Encoded.{Encoded};
ghost use Rattle.uc_rewrite.specs.Replay.{FactsReplay};
ghost use Rattle.uc_proof.specs.Chains.{ProvesGoal};
ghost use Rattle.uc_proof.specs.Printable.{ArePrintable};
ghost use Rattle.uc_proof.specs.Extracted.{IsEncodingOf, IsExtracted, AreDerivedFacts};

/// The facts' chains and those of a goal determine one proof, and one file for each of its lines.
pub fn one_extraction()
    ensures { (problem : Problem) (encoded : Encoded) (facts : List Fact) (left right : Chain) (goal : ℕ) (xs ys : List Line) (fs gs : List (List ℕ)) → IsEncodingOf problem encoded → IsExtracted problem encoded facts left right goal xs fs → IsExtracted problem encoded facts left right goal ys gs → (xs ≡ ys) × (fs ≡ gs) }
{}

/// The facts' chains determine one derivation of some of them, one file for each of its lines, and one number for each of these facts.
pub fn one_derivation()
    ensures { (problem : Problem) (encoded : Encoded) (facts : List Fact) (live : List ℕ) (xs ys : List Line) (fs gs : List (List ℕ)) (ns ms : List ℕ) → IsEncodingOf problem encoded → AreDerivedFacts problem encoded facts live xs fs ns → AreDerivedFacts problem encoded facts live ys gs ms → (xs ≡ ys) × (fs ≡ gs) × (ns ≡ ms) }
{}

/// Where the chains replay, all lines of the proof are right for the problem's clauses and the last one is a refutation. The
/// variables of each line are numbered by first occurrence, and where all that the proof is made of can be printed, its lines
/// can.
pub fn extraction_is_right()
    ensures right { (problem : Problem) (encoded : Encoded) (facts : List Fact) (left right : Chain) (goal : ℕ) (lines : List Line) (files : List (List ℕ)) → IsEncodingOf problem encoded → FactsReplay encoded.axioms facts → ProvesGoal encoded facts goal left right → IsExtracted problem encoded facts left right goal lines files → AreRightBefore problem.clauses encoded.fresh lines (length lines) × EndsInRefutation lines }
    ensures in_order { (problem : Problem) (encoded : Encoded) (facts : List Fact) (left right : Chain) (goal : ℕ) (lines : List Line) (files : List (List ℕ)) → IsExtracted problem encoded facts left right goal lines files → AreInOrder lines }
    ensures printable { (table : Table) (problem : Problem) (encoded : Encoded) (facts : List Fact) (left right : Chain) (goal : ℕ) (lines : List Line) (files : List (List ℕ)) → IsExtracted problem encoded facts left right goal lines files → ArePrintable table problem encoded facts left right → ArePrintableLines table files lines }
{}
