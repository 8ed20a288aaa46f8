//! A question that is a word of the command line.

ghost use Rattle.std.specs.Prelude.{◌≡◌, ◌≢◌, ◌<◌, ◌^◌, ◌++◌, ◌∷◌, [], ℕ, List, Some, slice_get, length, IfOk, IfErr, position};
ghost use Rattle.uc_term.specs.declared.node.Sym.{Sym as AnySym};
ghost use Rattle.uc_term.specs.Tree.{Tree};
ghost use Rattle.uc_term.specs.Flat.{flat};
ghost use Rattle.uc_term.specs.Table.{Table, Grows, Has};
ghost use Rattle.uc_term.specs.Gathering.{HasAll};
ghost use Rattle.uc_clause.specs.Interning.{InternsEquation};
ghost use Rattle.uc_clause.specs.Reading.{ReadsEquation};
ghost use Rattle.uc_answer.specs.QuestionWords.{is_unfit, nodes_of, first_unfit, IsQuestionWord, IsQuestionFault, AreShort, AreQuestions, IsFirstFault};

use crate::term_word::{WordFault, is_among, place_in};
use std::alloc::{AllocError, Global};
use uc_clause::{ClauseFault, read_equation};
use uc_term::{Node, Seq, Sym, Symbols, Term, Text};

/// Holds the two sides of an equation that is asked about.
pub type Question = (Term, Term);

/// Says which of several words is no question, by its number from 0 on, and why.
#[derive(Debug, Drop)]
pub struct Misread {
    pub number: usize,
    pub fault: WordFault,
}

/// Reads the questions that words are, in order, or says which is the first that is none. The table stays as it was where all are questions;
/// else it may have grown by symbols that aren't known.
pub fn read_questions(
    alloc: Global,
    words: &[Text],
    known: &[Sym],
    symbols: &mut Symbols,
) -> Result<Seq<Question>, Misread>
    requires { AreShort words.now }
    ensures reads { IfOk result (AreQuestions symbols.new known.now words.now) }
    ensures refused { HasAll symbols.old known.now → IfErr result (λ misread. IsFirstFault symbols.old known.now words.now misread.number misread.fault) }
    ensures grows { Grows symbols.old symbols.new }
    ensures kept { HasAll symbols.old known.now → IfOk result (λ _. symbols.new ≡ symbols.old) }
{
    let mut questions = Seq::new(alloc);
    for (number, word) in words.iter().enumerate() {
        if let Err(fault) = read_next(alloc, &mut questions, word.as_bytes(), known, symbols) {
            return Err(Misread { number, fault });
        }
    }
    Ok(questions)
}

// Puts the question that a word is behind others.
fn read_next(
    alloc: Global,
    questions: &mut Seq<Question>,
    word: &[u8],
    known: &[Sym],
    symbols: &mut Symbols,
) -> Result<(), WordFault>
    requires { length word.now < 2 ^ 31 }
    ensures reads { IfOk result (λ _. (question : Tree × Tree) × IsQuestionWord symbols.new known.now word.now question × (questions.new ≡ questions.old ++ question ∷ [])) }
    ensures refused { IfErr result (IsQuestionFault symbols.old known.now word.now) }
    ensures grows { Grows symbols.old symbols.new }
    ensures kept { HasAll symbols.old known.now → IfOk result (λ _. symbols.new ≡ symbols.old) }
{
    let question = read_question(alloc, word, known, symbols)?;
    questions.push(question)?;
    Ok(())
}

/// The question that a word is: an equation of two ground terms whose symbols are all known. A word is read whole, and then
/// its nodes are looked at, from left to right; the table may have grown by symbols that aren't known.
pub(crate) fn read_question(
    alloc: Global,
    word: &[u8],
    known: &[Sym],
    symbols: &mut Symbols,
) -> Result<Question, WordFault>
    requires { length word.now < 2 ^ 31 }
    ensures reads { IfOk result (IsQuestionWord symbols.new known.now word.now) }
    ensures refused { IfErr result (IsQuestionFault symbols.old known.now word.now) }
    ensures grows { Grows symbols.old symbols.new }
    ensures kept { HasAll symbols.old known.now → IfOk result (λ _. symbols.new ≡ symbols.old) }
{
    let sides = whole_equation(alloc, word, symbols)?;
    match first_unfit(known, &sides) {
        Some(number) => Err(fault_at(alloc, word, &sides, number, symbols)?),
        None => Ok(sides),
    }
}

// The sides of the equation that a word is.
fn whole_equation(alloc: Global, word: &[u8], symbols: &mut Symbols) -> Result<Question, WordFault>
    requires { length word.now < 2 ^ 31 }
    ensures reads { IfOk result (ReadsEquation word.now symbols.new) }
    ensures refused { (known : List AnySym) → IfErr result (IsQuestionFault symbols.old known word.now) }
    ensures grows { Grows symbols.old symbols.new }
    ensures interns { IfOk result (λ _. InternsEquation word.now symbols.old symbols.new) }
{
    match read_equation(alloc, word, symbols) {
        Ok(sides) => Ok(sides),
        Err(ClauseFault::NoMemory) => Err(WordFault::NoMemory),
        Err(fault) => Err(WordFault::Unread(fault)),
    }
}

// Whether a node is a variable, or its symbol none of these.
fn is_unfit(known: &[Sym], node: Node) -> bool
    ensures { result ≡ is_unfit known.now node }
{
    match node {
        Node::Var(_) => true,
        Node::App(symbol, _) => !is_among(symbol, known),
    }
}

// The number of the first of these nodes that no question may have, if there is one.
fn first_in(known: &[Sym], nodes: &[Node]) -> Option<usize>
    ensures { result ≡ position (is_unfit known.now) nodes.now }
{
    nodes.iter().position(|node| is_unfit(known, *node))
}

// The number of the first such node of two sides, left side first.
fn first_unfit(known: &[Sym], sides: &Question) -> Option<usize>
    ensures { result ≡ first_unfit known.now sides.now }
{
    let left = sides.0.as_nodes();
    let right = sides.1.as_nodes();
    if let Some(number) = first_in(known, left) {
        return Some(number);
    }
    let number = first_in(known, right)?;
    Some(left.len() + number)
}

// The node of this number of two sides, left side first.
fn node_at(sides: &Question, number: usize) -> Node
    requires { number < length (nodes_of sides.now) }
    ensures { slice_get (nodes_of sides.now) number ≡ Some result }
{
    let left = sides.0.as_nodes();
    if number < left.len() {
        left[number]
    } else {
        sides.1.as_nodes()[number - left.len()]
    }
}

// What is wrong with a word that is an equation, whose first node that no question may have has this number.
fn fault_at(
    alloc: Global,
    word: &[u8],
    sides: &Question,
    number: usize,
    symbols: &Symbols,
) -> Result<WordFault, AllocError>
    requires small { length word.now < 2 ^ 31 }
    requires reads { ReadsEquation word.now symbols.now sides.now }
    requires within { number < length (nodes_of sides.now) }
    ensures { (known : List AnySym) (before : Table) → InternsEquation word.now before symbols.now → first_unfit known sides.now ≡ Some number → IfOk result (IsQuestionFault before known word.now) }
{
    let place = place_in(alloc, word, number)?;
    match node_at(sides, number) {
        Node::Var(_) => Ok(WordFault::NotGround(place)),
        Node::App(symbol, _) => {
            let name = Text::from_bytes(alloc, symbols.name(symbol))?;
            Ok(WordFault::UnknownSymbol(place, name))
        }
    }
}
