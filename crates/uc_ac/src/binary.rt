//! The symbols that stand with two arguments in two terms.

ghost use Rattle.std.specs.Prelude.{◌≡◌, ◌++◌, ◌∷◌, [], IfOk, OnOk};
ghost use Rattle.uc_ac.specs.Joining.{AreBinaryIn};
ghost use Rattle.uc_ac.specs.Found.{binary_heads};

use std::alloc::{AllocError, Global};
use uc_term::{Node, Term};

/// The numbers of the symbols that head, with two arguments, a subterm of one of the two terms, each once, rising.
pub fn binary_symbols(alloc: Global, s: &Term, t: &Term) -> Result<Vec<u32>, AllocError>
    ensures { IfOk result (λ numbers. AreBinaryIn s.now t.now numbers.items) }
{
    let mut numbers = Vec::new(alloc);
    add_heads(&mut numbers, s.as_nodes())?;
    add_heads(&mut numbers, t.as_nodes())?;
    numbers.sort_unstable();
    numbers.dedup();
    Ok(numbers)
}

/// Puts the numbers of the symbols with two arguments among some nodes at the end of a list, each as often as it stands there.
fn add_heads(numbers: &mut Vec<u32>, nodes: &[Node]) -> Result<(), AllocError>
    ensures { OnOk result (numbers.new.items ≡ numbers.old.items ++ binary_heads nodes.now) }
{
    for node in nodes {
        add_head(numbers, *node)?;
    }
    Ok(())
}

/// Puts the number of a symbol with two arguments at the end of a list.
fn add_head(numbers: &mut Vec<u32>, node: Node) -> Result<(), AllocError>
    ensures { OnOk result (numbers.new.items ≡ numbers.old.items ++ binary_heads (node ∷ [])) }
{
    match node {
        Node::Var(_) => Ok(()),
        Node::App(f, n) => {
            if n != 2 {
                return Ok(());
            }
            numbers.push(f.0)?;
            Ok(())
        }
    }
}
