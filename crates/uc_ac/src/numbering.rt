//! The number of a term's class: terms that are equal up to brackets and order at some binary symbols have one class.

ghost use Rattle.std.specs.Prelude.{◌≡◌, ◌⊎◌, ◌++◌, ◌≤◌, ℕ, List, length, IfOk, OnOk};
ghost use Rattle.uc_term.specs.declared.node.Sym.{Sym as AnySym};
ghost use Rattle.uc_term.specs.Tree.{Tree};
ghost use Rattle.uc_term.specs.Flat.{tree_of, IsWhole};
ghost use Rattle.uc_order.specs.Members.{In};
ghost use Rattle.uc_order.specs.Laws.{pair_of};
ghost use Rattle.uc_ac.specs.Classes.{Has, ArePartsOf, IsRead, Stands, IsGrown, Reads, AreClosed};

use crate::among::is_among;
use crate::classes::Classes;
use std::alloc::{AllocError, Global};
use uc_term::{Node, Sym};

/// What is known of a term whose nodes have been read: the number of its class; or, of a term that one of the symbols heads, the
/// numbers of its parts' classes, in any order, as long as the term may be below the same symbol.
#[derive(Drop)]
enum Read {
    Class(usize),
    Parts(Sym, Vec<usize>),
}

/// The number of a term's class. The nodes are read from right to left, so that those of a symbol's arguments come before it, and
/// a stack has the terms that begin with the nodes that were read.
pub(crate) fn number_of(
    alloc: Global,
    classes: &mut Classes,
    symbols: &[Sym],
    term: &[Node],
) -> Result<usize, AllocError>
    requires whole { IsWhole term.now }
    ensures number { IfOk result (λ k. Has symbols.now classes.new k (tree_of term.now)) }
    ensures grown { OnOk result (IsGrown classes.old classes.new) }
{
    let mut terms = Vec::new(alloc);
    let mut place = term.len();
    while place > 0 {
        place -= 1;
        read_node(alloc, classes, symbols, term[place], &mut terms)?;
    }
    let read = terms.pop().unwrap();
    let number = close(alloc, classes, read)?;
    Ok(number)
}

/// Reads one more node: the terms that are its arguments come off the stack, and its own term goes on it.
fn read_node(
    alloc: Global,
    classes: &mut Classes,
    symbols: &[Sym],
    node: Node,
    terms: &mut Vec<Read>,
) -> Result<(), AllocError>
    requires enough { (f : AnySym) (n : ℕ) → node ≡ Node.App f n → n ≤ length terms.old.items }
    ensures read { OnOk result (Reads symbols.now node classes.old terms.old.items classes.new terms.new.items) }
    ensures grown { OnOk result (IsGrown classes.old classes.new) }
{
    match node {
        Node::Var(x) => {
            read_variable(alloc, classes, x, terms)?;
            Ok(())
        }
        Node::App(f, n) => {
            if n == 2 && is_among(symbols, f) {
                read_pair(alloc, classes, f, terms)?;
                return Ok(());
            }
            read_symbol(alloc, classes, f, n, terms)?;
            Ok(())
        }
    }
}

fn read_variable(
    alloc: Global,
    classes: &mut Classes,
    x: u32,
    terms: &mut Vec<Read>,
) -> Result<(), AllocError>
    ensures read { OnOk result ((symbols : List AnySym) → Reads symbols (Node.Var x) classes.old terms.old.items classes.new terms.new.items) }
    ensures grown { OnOk result (IsGrown classes.old classes.new) }
{
    let class = Vec::from_slice(alloc, &[VARIABLE, x as usize])?;
    let number = classes.insert(class)?;
    terms.push(Read::Class(number))?;
    Ok(())
}

/// Reads a node of one of the symbols, with two arguments: the term's parts are theirs.
fn read_pair(
    alloc: Global,
    classes: &mut Classes,
    f: Sym,
    terms: &mut Vec<Read>,
) -> Result<(), AllocError>
    requires enough { 2 ≤ length terms.old.items }
    ensures read { OnOk result ((symbols : List AnySym) → In symbols f → Reads symbols (Node.App f 2) classes.old terms.old.items classes.new terms.new.items) }
    ensures grown { OnOk result (IsGrown classes.old classes.new) }
{
    let first = terms.pop().unwrap();
    let second = terms.pop().unwrap();
    let left = parts_of(alloc, classes, f, first)?;
    let right = parts_of(alloc, classes, f, second)?;
    let both = append(left, right)?;
    terms.push(Read::Parts(f, both))?;
    Ok(())
}

/// Reads a node of another symbol: the classes of the arguments make that of the term.
fn read_symbol(
    alloc: Global,
    classes: &mut Classes,
    f: Sym,
    n: u32,
    terms: &mut Vec<Read>,
) -> Result<(), AllocError>
    requires enough { n ≤ length terms.old.items }
    ensures read { OnOk result ((symbols : List AnySym) → (In symbols f × (n ≡ 2) → ⊥) → Reads symbols (Node.App f n) classes.old terms.old.items classes.new terms.new.items) }
    ensures grown { OnOk result (IsGrown classes.old classes.new) }
{
    let mut class = Vec::from_slice(alloc, &[SYMBOL, f.0 as usize])?;
    close_arguments(alloc, classes, n, terms, &mut class)?;
    let number = classes.insert(class)?;
    terms.push(Read::Class(number))?;
    Ok(())
}

/// Takes so many terms off the stack, and writes the numbers of their classes behind a list.
fn close_arguments(
    alloc: Global,
    classes: &mut Classes,
    n: u32,
    terms: &mut Vec<Read>,
    numbers: &mut Vec<usize>,
) -> Result<(), AllocError>
    requires enough { n ≤ length terms.old.items }
    ensures closed { OnOk result ((symbols : List AnySym) (ts : List Tree) → Stands symbols classes.old terms.old.items ts → AreClosed symbols classes.new terms.new.items numbers.old.items numbers.new.items n ts) }
    ensures grown { OnOk result (IsGrown classes.old classes.new) }
{
    let mut left = n;
    while left > 0 {
        let read = terms.pop().unwrap();
        numbers.push(close(alloc, classes, read)?)?;
        left -= 1;
    }
    Ok(())
}

/// The numbers of the classes of a term's parts at one of the symbols, in any order.
fn parts_of(
    alloc: Global,
    classes: &mut Classes,
    f: Sym,
    read: Read,
) -> Result<Vec<usize>, AllocError>
    ensures parts { IfOk result (λ numbers. (symbols : List AnySym) (t : Tree) → In symbols f → IsRead symbols classes.old read t → ArePartsOf symbols classes.new f numbers.items t) }
    ensures grown { OnOk result (IsGrown classes.old classes.new) }
{
    match read {
        Read::Class(number) => {
            let numbers = Vec::from_slice(alloc, &[number])?;
            Ok(numbers)
        }
        Read::Parts(g, numbers) => {
            if g == f {
                return Ok(numbers);
            }
            let number = close_parts(alloc, classes, g, numbers)?;
            let numbers = Vec::from_slice(alloc, &[number])?;
            Ok(numbers)
        }
    }
}

/// The number of the class of a term that has been read.
fn close(alloc: Global, classes: &mut Classes, read: Read) -> Result<usize, AllocError>
    ensures number { IfOk result (λ k. (symbols : List AnySym) (t : Tree) → IsRead symbols classes.old read t → Has symbols classes.new k t) }
    ensures grown { OnOk result (IsGrown classes.old classes.new) }
{
    match read {
        Read::Class(number) => Ok(number),
        Read::Parts(f, numbers) => {
            let number = close_parts(alloc, classes, f, numbers)?;
            Ok(number)
        }
    }
}

/// The number of the class of a term that one of the symbols heads: that of the sorted list of its parts' classes.
fn close_parts(
    alloc: Global,
    classes: &mut Classes,
    f: Sym,
    mut numbers: Vec<usize>,
) -> Result<usize, AllocError>
    ensures number { IfOk result (λ k. (symbols : List AnySym) (a b : Tree) → In symbols f → ArePartsOf symbols classes.old f numbers.items (pair_of f a b) → Has symbols classes.new k (pair_of f a b)) }
    ensures grown { OnOk result (IsGrown classes.old classes.new) }
{
    numbers.sort_unstable();
    let mut class = Vec::from_slice(alloc, &[PARTS, f.0 as usize])?;
    class.append(&mut numbers)?;
    let number = classes.insert(class)?;
    Ok(number)
}

/// Puts two lists together, the shorter one behind the longer one, so that of n numbers that are put together step by step each
/// is moved at most log n times.
fn append(mut left: Vec<usize>, mut right: Vec<usize>) -> Result<Vec<usize>, AllocError>
    ensures { IfOk result (λ both. (both.items ≡ left.items ++ right.items) ⊎ (both.items ≡ right.items ++ left.items)) }
{
    if left.len() < right.len() {
        right.append(&mut left)?;
        Ok(right)
    } else {
        left.append(&mut right)?;
        Ok(left)
    }
}

// What a class begins with.
const VARIABLE: usize = 0;

const SYMBOL: usize = 1;

const PARTS: usize = 2;
