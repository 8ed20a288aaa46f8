//! The check of certificates.

ghost use Rattle.std.specs.Prelude.{◌≡◌, ◌<◌, ◌^◌, length, IfOk};
ghost use Rattle.uc_order.specs.Laws.{HasSym};
ghost use Rattle.uc_order.specs.Members.{Each};
ghost use Rattle.uc_fact.specs.Ground.{AreOfSignature};
ghost use Rattle.uc_decide.specs.Deciding.{Decides};
ghost use Rattle.uc_system.specs.Reading.{precedence_of};
ghost use Rattle.uc_certify.specs.declared.certified.Certified.TheVariants.{Yes};
ghost use Rattle.uc_certificate.specs.Arities.{JoinsKeepArities};
ghost use Rattle.uc_certify.specs.Certifying.{AreSameSymbols, AreTested, IsCertified};
ghost use Rattle.uc_certify.specs.Gathering.{IsKnownMember, IsIfLarge, AreExpectedTested};
ghost use Rattle.uc_certify.specs.Knowing.{IsSetOf};
ghost use Rattle.uc_certify.specs.Settings.{IsEncodingOf};

use crate::expected::expected_members;
use crate::fact_lines::first_underived;
use crate::joining::is_right_join;
use crate::moving::Rules;
use crate::symbol_set::{SymbolSet, are_same_symbols, precedence};
use crate::{Certified, Member};
use std::alloc::{AllocError, Global};
use uc_certificate::{Certificate, Join};
use uc_check::check_lines;
use uc_clause::Sourced;
use uc_fact::{Equation, Overlap};
use uc_order::Order;
use uc_pair::Size;
use uc_problem::Encoded;

/// Whether a certificate shows that its facts decide what follows from the axioms of an encoded problem, and else the first of its
/// tests that fails. It makes no search: it looks at the certificate's own lines and replacements, and forms the overlaps of the
/// facts.
///
/// The answer is the first of these that holds:
///
/// * `Symbols`, where the symbol lines don't name exactly the symbols of the encoded problem;
/// * `Line`, where a line of the derivation isn't right, with the first such and the cause of its first test that fails;
/// * `Fact`, where the line that is named for a fact isn't a chain line of the fact's equation, sides in order, with the first such;
/// * `Large` or `Join`, by what is expected to be joined: every axiom in order, and then every overlap of two facts, by outer fact,
///   inner fact and the order of their overlaps. Where a member is an overlap whose pair is too large, it is `Large`, before the
///   join of its number is looked at; where that join is missing, is another member's or isn't right, it is `Join` with the number;
/// * `Join`, where a join stands behind the last one that is expected, with the first such;
/// * `Yes`.
///
/// A join is right where its moves lead from the two sides of the axiom, or of the overlap's pair, to ends that are joined as it
/// says. Each move replaces equals by equals, by the fact, the way and at the position that it names; the subterm there is greater
/// than what takes its place; and it has symbols of the symbol lines alone and, under an order of variables, only variables of
/// that order.
///
/// The order is the certificate's, and each symbol of it has in the moves as many arguments as its arity. `AllocError` comes for
/// want of memory alone.
pub fn check_certificate<O: Order>(
    alloc: Global,
    clauses: &[Sourced],
    encoded: &Encoded,
    certificate: &Certificate,
    order: &O,
) -> Result<Certified, AllocError>
    requires order { AreSameSymbols (O.meaning order.now).symbols (precedence_of certificate.now.text.spec) }
    requires arities { JoinsKeepArities (O.meaning order.now) certificate.now.joins }
    requires few_axioms { length encoded.now.axioms < 2 ^ 32 }
    requires few_facts { length certificate.now.text.system.facts < 2 ^ 32 }
    requires few_lines { length certificate.now.lines.lines < 2 ^ 31 }
    requires few_joins { length certificate.now.joins < 2 ^ 32 }
    ensures certified { IfOk result (IsCertified (O.meaning order.now) clauses.now encoded.now certificate.now) }
    // what follows: the facts decide what follows from the encoded axioms
    ensures decides { IfOk result (λ answer. answer ≡ Yes → AreOfSignature (HasSym (O.meaning order.now)) (O.meaning order.now).arity certificate.now.text.system.facts → IsEncodingOf (O.meaning order.now) clauses.now encoded.now → Decides (O.meaning order.now) certificate.now.text.system.facts encoded.now.axioms) }
{
    let symbols = precedence(&certificate.text.spec);
    let set = SymbolSet::of(alloc, symbols)?;
    let others = encoded.signature.symbols.as_slice();
    if !are_same_symbols(alloc, &set, symbols, others)? {
        return Ok(Certified::Symbols);
    }
    let lines = &certificate.lines;
    if let Some((line, cause)) = check_lines(alloc, clauses, encoded.fresh.as_ref(), lines)? {
        return Ok(Certified::Line(line, cause));
    }
    let facts = certificate.text.system.facts.as_slice();
    let numbers = certificate.facts.as_slice();
    if let Some(fact) = first_underived(numbers, lines.lines.as_slice(), facts) {
        return Ok(Certified::Fact(fact));
    }
    let rules = Rules {
        facts,
        symbols: &set,
    };
    let axioms = encoded.axioms.as_slice();
    test_joins(alloc, &rules, axioms, order, certificate.joins.as_slice())
}

/// The outcome of the tests of the joins, along what is expected to be joined.
fn test_joins<O: Order>(
    alloc: Global,
    rules: &Rules,
    axioms: &[Equation],
    order: &O,
    joins: &[Join],
) -> Result<Certified, AllocError>
    requires symbols { IsSetOf rules.now.symbols.now.numbers.keys (O.meaning order.now).symbols }
    requires arities { JoinsKeepArities (O.meaning order.now) joins.now }
    requires few_axioms { length axioms.now < 2 ^ 32 }
    requires few_facts { length rules.now.facts.now < 2 ^ 32 }
    requires few_joins { length joins.now < 2 ^ 32 }
    ensures { IfOk result (AreExpectedTested (O.meaning order.now) rules.now.facts.now axioms.now joins.now) }
{
    let members = expected_members(alloc, axioms, rules.facts, order)?;
    test_members(alloc, rules, axioms, order, members.as_slice(), joins)
}

/// The outcome of the tests of the joins, along these members.
fn test_members<O: Order>(
    alloc: Global,
    rules: &Rules,
    axioms: &[Equation],
    order: &O,
    members: &[Member],
    joins: &[Join],
) -> Result<Certified, AllocError>
    requires symbols { IsSetOf rules.now.symbols.now.numbers.keys (O.meaning order.now).symbols }
    requires known { Each (IsKnownMember rules.now.facts.now axioms.now) members.now }
    requires arities { JoinsKeepArities (O.meaning order.now) joins.now }
    requires few_joins { length joins.now < 2 ^ 32 }
    ensures { IfOk result (AreTested (O.meaning order.now) rules.now.facts.now axioms.now members.now joins.now 0) }
{
    for (n, member) in members.iter().enumerate() {
        if let Some(overlap) = if_large(*member) {
            return Ok(Certified::Large(overlap));
        }
        let Some(join) = joins.get(n) else {
            return Ok(Certified::Join(n as u32));
        };
        if !is_right_join(alloc, rules, axioms, order, *member, join)? {
            return Ok(Certified::Join(n as u32));
        }
    }
    if members.len() < joins.len() {
        return Ok(Certified::Join(members.len() as u32));
    }
    Ok(Certified::Yes)
}

/// The member's overlap, where it is one whose pair is too large.
fn if_large(member: Member) -> Option<Overlap>
    ensures { IsIfLarge member result }
{
    match member {
        Member::Axiom(_) => None,
        Member::Overlap(formed) => match formed.size {
            Size::Large => Some(formed.overlap),
            Size::Same => None,
            Size::Weight(_) => None,
        },
    }
}
