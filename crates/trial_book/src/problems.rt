//! Problems by chance: of words over two letters, and of terms with a binary symbol besides.

ghost use Rattle.std.specs.Prelude.{◌≤◌};

use crate::images::mark_of;
use crate::order::{A, F, G, I};
use std::alloc::{AllocError, Global};
use uc_problem::{Encoded, Signature};
use uc_term::{Equation, Seq, Term, TermFault};

/// What the terms of an equation are made of.
#[derive(Clone, Copy)]
struct Shape {
    /// In how many ways a term may grow: the first two are the letters.
    ways: u32,
    /// How many variables there are.
    variables: u32,
    /// How often a term may grow.
    length: u32,
}

/// Numbers that are each made of the one before.
#[derive(Clone, Copy)]
pub struct Generator {
    state: u64,
}

impl Generator {
    pub fn from(start: u32) -> Generator {
        Generator {
            state: start as u64,
        }
    }

    /// The next number below a bound.
    pub fn below(&mut self, bound: u32) -> u32
        ensures { result ≤ bound }
    {
        let next = self.state.wrapping_mul(1_103_515_245).wrapping_add(12_345);
        self.state = next % 2_147_483_648;
        if bound == 0 {
            0
        } else {
            ((self.state / 65_536) % bound as u64) as u32
        }
    }

    /// A small number, or one that is larger.
    pub fn often_large(&mut self) -> u32
        ensures { result ≤ 1000 }
    {
        if self.below(4) == 0 {
            self.below(8)
        } else {
            self.below(60).saturating_add(6)
        }
    }

    // the constant, or a variable
    fn leaf(&mut self, alloc: Global, shape: Shape) -> Result<Term, TermFault> {
        match self.below(shape.variables.saturating_add(1)) {
            0 => Term::app(alloc, A, &[]),
            n => Ok(Term::var(alloc, n - 1)?),
        }
    }

    // a term with one symbol more at its head
    fn grown(&mut self, alloc: Global, term: Term, shape: Shape) -> Result<Term, TermFault> {
        match self.below(shape.ways) {
            0 => Term::app(alloc, G, &[term]),
            1 => Term::app(alloc, I, &[term]),
            2 => Term::app(alloc, F, &[term, self.leaf(alloc, shape)?]),
            _ => Term::app(alloc, F, &[self.leaf(alloc, shape)?, term]),
        }
    }

    // a term that grew from this one
    fn term(&mut self, alloc: Global, end: &Term, shape: Shape) -> Result<Term, TermFault> {
        let mut term = end.copy(alloc)?;
        for _ in 0..self.below(shape.length.saturating_add(1)) {
            term = self.grown(alloc, term, shape)?;
        }
        Ok(term)
    }

    // two terms that grew from one
    fn equation(&mut self, alloc: Global, shape: Shape) -> Result<Equation, TermFault> {
        let end = self.leaf(alloc, shape)?;
        Ok(Equation {
            left: self.term(alloc, &end, shape)?,
            right: self.term(alloc, &end, shape)?,
        })
    }

    // at most so many equations
    fn equations(
        &mut self,
        alloc: Global,
        most: u32,
        shape: Shape,
    ) -> Result<Seq<Equation>, TermFault> {
        let mut list = Seq::new(alloc);
        for _ in 0..self.below(most.saturating_add(1)) {
            list.push(self.equation(alloc, shape)?)?;
        }
        Ok(list)
    }

    /// A problem of few axioms and goals.
    pub fn problem(&mut self, alloc: Global) -> Result<Encoded, TermFault> {
        let of_words = self.below(3) != 0;
        let (ways, variables, length) = if of_words { (2, 1, 5) } else { (4, 2, 4) };
        let of_axioms = Shape {
            ways,
            variables,
            length,
        };
        let of_goals = Shape {
            ways,
            variables: 0,
            length: 6,
        };
        Ok(Encoded {
            axioms: self.equations(alloc, 6, of_axioms)?,
            sources: Seq::new(alloc),
            goals: self.equations(alloc, 3, of_goals)?,
            goal_clauses: Seq::new(alloc),
            fresh: None,
            signature: Signature {
                symbols: Seq::new(alloc),
                least: A,
                least_is_fresh: false,
            },
        })
    }
}

/// How many nodes the sides of each equation have together.
pub fn weights(alloc: Global, equations: &[Equation]) -> Result<Vec<u32>, AllocError> {
    let mut list = Vec::new(alloc);
    for equation in equations {
        list.push(equation.left.nodes().saturating_add(equation.right.nodes()))?;
    }
    Ok(list)
}

/// The marks of the sides of each equation.
pub fn marks(alloc: Global, equations: &[Equation]) -> Result<Vec<(u64, u64)>, AllocError> {
    let mut list = Vec::new(alloc);
    for equation in equations {
        list.push((mark_of(&equation.left), mark_of(&equation.right)))?;
    }
    Ok(list)
}
