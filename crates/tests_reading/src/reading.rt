use std::alloc::Global;
use std::test::Fail;
use uc_clause::{
    ClauseFault, Item, Place, item_at, literal_at, read_equation, read_items, read_term, tokens,
};
use uc_term::{Node, Sym, Symbols};

const X: Node = Node::Var(0);

const Y: Node = Node::Var(1);

// The functor that was the first to be closed, with one argument, and the one behind it, with two.
const G: Node = Node::App(Sym(0), 1);

const F: Node = Node::App(Sym(1), 2);

#[test]
fn a_term_is_read(rt: HostRuntime) -> Result<(), Fail> {
    let mut symbols = Symbols::new(rt.alloc());
    let term = read_term(rt.alloc(), b"f(X,g(Y))", &mut symbols)?;
    assert!(rt; term.as_nodes() == [F, X, G, Y].as_slice());
    Ok(())
}

#[test]
fn an_equation_is_read(rt: HostRuntime) -> Result<(), Fail> {
    let mut symbols = Symbols::new(rt.alloc());
    let (left, right) = read_equation(rt.alloc(), b"g(X) = f(Y,X)", &mut symbols)?;
    assert!(rt; left.as_nodes() == [G, X].as_slice());
    assert!(rt; right.as_nodes() == [F, Y, X].as_slice());
    Ok(())
}

#[test]
fn items_are_read(rt: HostRuntime) -> Result<(), Fail> {
    let mut symbols = Symbols::new(rt.alloc());
    let text = b"include('a.ax',[k]).\ncnf(k, axiom, ~ g(X) = Y, note).";
    let items = read_items(rt.alloc(), text, &mut symbols)?;
    assert!(rt; are_two_items(items.as_slice()));
    Ok(())
}

fn are_two_items(items: &[Item]) -> bool {
    match items {
        [Item::Include(include), Item::Clause(clause)] => {
            include.file.as_bytes() == "a.ax".as_bytes()
                && !clause.positive
                && clause.left.as_nodes() == [G, X].as_slice()
                && clause.place == Place { line: 2, column: 1 }
        }
        _ => false,
    }
}

const ITEMS: &[u8] = b"include('a.ax'). cnf(k, axiom, X != g(Y)).";

// The number of the token behind the first item, and whether that is an include.
fn first_item(alloc: Global, symbols: &mut Symbols) -> Result<(bool, u32), ClauseFault> {
    let found = tokens(alloc, ITEMS)?;
    if found.is_empty() || found.len() > 100 {
        return Ok((false, 0));
    }
    let (item, end) = item_at(alloc, ITEMS, found.as_slice(), 0, symbols)?;
    Ok((matches!(item, Item::Include(_)), end))
}

// Whether the literal of the clause is a denial, and the number of the token behind it.
fn its_literal(alloc: Global, symbols: &mut Symbols) -> Result<(bool, u32), ClauseFault> {
    let found = tokens(alloc, ITEMS)?;
    if found.len() < 12 || found.len() > 100 {
        return Ok((false, 0));
    }
    let (positive, _, _, _, end) = literal_at(alloc, ITEMS, found.as_slice(), 11, symbols)?;
    Ok((!positive, end))
}

#[test]
fn parts_of_a_text_are_read(rt: HostRuntime) -> Result<(), Fail> {
    let mut symbols = Symbols::new(rt.alloc());
    assert!(rt; first_item(rt.alloc(), &mut symbols)? == (true, 5));
    assert!(rt; its_literal(rt.alloc(), &mut symbols)? == (true, 17));
    Ok(())
}
