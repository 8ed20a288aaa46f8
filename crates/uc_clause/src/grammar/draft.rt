//! A term while it is read: a loop over the tokens, with an explicit stack of the functors whose arguments are being read.

ghost use Rattle.std.specs.Prelude.{◌≡◌, ◌≢◌, ℕ, ◌+◌, ◌<◌, ◌≤◌, ◌++◌, ◌∷◌, [], List, true, false, length, IfOk, IfErr, MatchBool};
ghost use Rattle.uc_term.specs.Flat.{tree_of, IsWhole};
ghost use Rattle.uc_term.specs.Table.{Grows};
ghost use Rattle.uc_clause.specs.Tokens.{AreTokens};
ghost use Rattle.uc_clause.specs.Terminals.{terminal_at};
ghost use Rattle.uc_clause.specs.Terms.{head_at, Term as Reads};
ghost use Rattle.uc_clause.specs.Rules.{Stops};
ghost use Rattle.uc_clause.specs.Drafts.{Moves, IsStuck, IsRead, state_of};
ghost use Rattle.uc_clause.specs.declared.grammar.head.Head.TheVariants as head;
ghost use Rattle.uc_clause.specs.declared.terminal.Terminal.TheVariants as terminal;
ghost use Rattle.uc_clause.specs.declared.grammar.draft.Pending.{Pending};

use super::head::head_at;
use super::term::Part;
use crate::terminal::token_at;
use crate::{
    Head, Place, Stop, Terminal, Token, Variables, Why, bytes_at, stands_at, terminal_at, word_at,
};
use std::alloc::Global;
use uc_term::{MAX_NODES, Node, Sym, Symbols, Term};

/// The most arguments of a functor.
pub const MAX_ARITY: u32 = 255;

/// A functor whose arguments are being read: its token, its node's place, and the number of the present argument.
#[derive(Clone, Copy, Debug)]
pub(crate) struct Pending {
    functor: usize,
    node: usize,
    number: u32,
}

/// A term while it is read.
#[derive(Drop)]
pub(crate) struct Draft {
    /// The next token.
    at: usize,
    /// Whether a subterm ends before the next token; if not, a term is called for.
    behind_term: bool,
    /// The nodes so far; that of a pending functor gets its symbol and its number of arguments when it is closed.
    nodes: Vec<Node>,
    /// The nodes' places.
    places: Vec<Place>,
    /// The pending functors, the innermost last.
    pending: Vec<Pending>,
}

impl Draft {
    /// Reads the term that begins at the token of this number.
    pub(crate) fn read(
        alloc: Global,
        bytes: &[u8],
        tokens: &[Token],
        from: usize,
        variables: &mut Variables,
        symbols: &mut Symbols,
    ) -> Result<Draft, Stop>
        requires tokens { AreTokens bytes.now tokens.now }
        ensures reads { IfOk result (λ draft. IsRead bytes.now tokens.now from variables.old symbols.old (state_of draft variables.new symbols.new)) }
        ensures stops { IfErr result (λ e. Stops (Reads bytes.now tokens.now 0 from) e) }
        ensures grows { Grows symbols.old symbols.new }
    {
        let mut draft = Draft {
            at: from,
            behind_term: false,
            nodes: Vec::new(alloc),
            places: Vec::new(alloc),
            pending: Vec::new(alloc),
        };
        'steps: while !draft.is_whole() {
            draft.step(alloc, bytes, tokens, variables, symbols)?;
        }
        Ok(draft)
    }

    /// The term that was read.
    pub(crate) fn into_part(self) -> Part
        requires whole { IsWhole self.nodes.items }
        requires small { length self.nodes.items ≤ MAX_NODES }
        ensures { result ≡ record { term = tree_of self.nodes.items; places = self.places; end = self.at } }
    {
        let Draft {
            at,
            behind_term: _,
            nodes,
            places,
            pending: _,
        } = self;
        Part {
            term: Term::from_nodes(nodes),
            places,
            end: at,
        }
    }

    // Whether a whole term is read.
    fn is_whole(&self) -> bool
        ensures { MatchBool result ((self.now.behind_term ≡ true) × (self.now.pending.items ≡ [])) (self.now.behind_term ≡ true → self.now.pending.items ≢ []) }
    {
        self.behind_term && self.pending.is_empty()
    }

    // Goes on by one token, or by a functor and its opening bracket.
    fn step(
        &mut self,
        alloc: Global,
        bytes: &[u8],
        tokens: &[Token],
        variables: &mut Variables,
        symbols: &mut Symbols,
    ) -> Result<(), Stop>
        requires tokens { AreTokens bytes.now tokens.now }
        requires goes_on { self.old.behind_term ≡ true → self.old.pending.items ≢ [] }
        requires pending { (rest : List Pending) (top : Pending) → self.old.pending.items ≡ rest ++ top ∷ [] → (top.node < length self.old.nodes.items) × (top.functor < length tokens.now) }
        ensures moves { IfOk result (λ _. Moves bytes.now tokens.now (state_of self.old variables.old symbols.old) (state_of self.new variables.new symbols.new)) }
        ensures stops { IfErr result (IsStuck bytes.now tokens.now (state_of self.old variables.old symbols.old)) }
        ensures grows { Grows symbols.old symbols.new }
    {
        if self.behind_term {
            self.behind(alloc, bytes, tokens, symbols)?;
            Ok(())
        } else {
            self.begin(alloc, bytes, tokens, variables, symbols)?;
            Ok(())
        }
    }

    // A subterm ends before the next token, which is a comma or the closing bracket of the innermost functor.
    fn behind(
        &mut self,
        alloc: Global,
        bytes: &[u8],
        tokens: &[Token],
        symbols: &mut Symbols,
    ) -> Result<(), Stop>
        requires tokens { AreTokens bytes.now tokens.now }
        requires behind { self.old.behind_term ≡ true }
        requires goes_on { self.old.pending.items ≢ [] }
        requires pending { (rest : List Pending) (top : Pending) → self.old.pending.items ≡ rest ++ top ∷ [] → (top.node < length self.old.nodes.items) × (top.functor < length tokens.now) }
        ensures moves { IfOk result (λ _. (seen : _) → Moves bytes.now tokens.now (state_of self.old seen symbols.old) (state_of self.new seen symbols.new)) }
        ensures stops { IfErr result (λ e. (seen : _) → IsStuck bytes.now tokens.now (state_of self.old seen symbols.old) e) }
        ensures grows { Grows symbols.old symbols.new }
    {
        let Some(top) = self.pending.pop() else {
            return Ok(());
        };
        match terminal_at(bytes, tokens, self.at) {
            Terminal::Close => {
                let name = word_at(alloc, bytes, tokens, top.functor)?;
                let sym = symbols.intern(alloc, name.as_bytes(), top.number)?;
                self.nodes[top.node] = Node::App(sym, top.number);
                self.at += 1;
                Ok(())
            }
            Terminal::Comma => {
                if top.number >= MAX_ARITY {
                    return Err(Stop::At(Why::Arity, top.functor));
                }
                self.pending.push(Pending {
                    functor: top.functor,
                    node: top.node,
                    number: top.number + 1,
                })?;
                self.at += 1;
                self.behind_term = false;
                Ok(())
            }
            _ => Err(Stop::At(Why::NoToken, self.at)),
        }
    }

    // A term is called for.
    fn begin(
        &mut self,
        alloc: Global,
        bytes: &[u8],
        tokens: &[Token],
        variables: &mut Variables,
        symbols: &mut Symbols,
    ) -> Result<(), Stop>
        requires tokens { AreTokens bytes.now tokens.now }
        requires begins { self.old.behind_term ≡ false }
        ensures moves { IfOk result (λ _. Moves bytes.now tokens.now (state_of self.old variables.old symbols.old) (state_of self.new variables.new symbols.new)) }
        ensures stops { IfErr result (IsStuck bytes.now tokens.now (state_of self.old variables.old symbols.old)) }
        ensures grows { Grows symbols.old symbols.new }
    {
        let head = head_at(bytes, tokens, self.at);
        if let Head::Neither = head {
            return Err(Stop::At(Why::NoTerm, self.at));
        }
        if self.nodes.len() >= MAX_NODES {
            return Err(Stop::At(Why::Nodes, self.at));
        }
        match head {
            Head::Variable => {
                self.variable(alloc, bytes, tokens, variables)?;
                Ok(())
            }
            Head::Functor => {
                self.functor(alloc, bytes, tokens, symbols)?;
                Ok(())
            }
            Head::Neither => Err(Stop::At(Why::NoTerm, self.at)),
        }
    }

    // A functor begins a term.
    fn functor(
        &mut self,
        alloc: Global,
        bytes: &[u8],
        tokens: &[Token],
        symbols: &mut Symbols,
    ) -> Result<(), Stop>
        requires tokens { AreTokens bytes.now tokens.now }
        requires begins { self.old.behind_term ≡ false }
        requires head { head_at bytes.now tokens.now self.old.at ≡ head.Functor }
        requires room { length self.old.nodes.items < MAX_NODES }
        ensures moves { IfOk result (λ _. (seen : _) → Moves bytes.now tokens.now (state_of self.old seen symbols.old) (state_of self.new seen symbols.new)) }
        ensures stops { IfErr result (λ e. e ≡ Stop.NoMemory) }
        ensures grows { Grows symbols.old symbols.new }
    {
        if stands_at(bytes, tokens, self.at + 1, Terminal::Open) {
            self.open(bytes, tokens)?;
            Ok(())
        } else {
            self.constant(alloc, bytes, tokens, symbols)?;
            Ok(())
        }
    }

    fn variable(
        &mut self,
        alloc: Global,
        bytes: &[u8],
        tokens: &[Token],
        variables: &mut Variables,
    ) -> Result<(), Stop>
        requires tokens { AreTokens bytes.now tokens.now }
        requires begins { self.old.behind_term ≡ false }
        requires head { head_at bytes.now tokens.now self.old.at ≡ head.Variable }
        requires room { length self.old.nodes.items < MAX_NODES }
        ensures moves { IfOk result (λ _. (table : _) → Moves bytes.now tokens.now (state_of self.old variables.old table) (state_of self.new variables.new table)) }
        ensures stops { IfErr result (λ e. e ≡ Stop.NoMemory) }
    {
        let number = variables.number(alloc, bytes_at(bytes, tokens, self.at))?;
        self.nodes.push(Node::Var(number))?;
        self.places.push(token_at(bytes, tokens, self.at).place)?;
        self.at += 1;
        self.behind_term = true;
        Ok(())
    }

    fn constant(
        &mut self,
        alloc: Global,
        bytes: &[u8],
        tokens: &[Token],
        symbols: &mut Symbols,
    ) -> Result<(), Stop>
        requires tokens { AreTokens bytes.now tokens.now }
        requires begins { self.old.behind_term ≡ false }
        requires head { head_at bytes.now tokens.now self.old.at ≡ head.Functor }
        requires alone { terminal_at bytes.now tokens.now (self.old.at + 1) ≢ terminal.Open }
        requires room { length self.old.nodes.items < MAX_NODES }
        ensures moves { IfOk result (λ _. (seen : _) → Moves bytes.now tokens.now (state_of self.old seen symbols.old) (state_of self.new seen symbols.new)) }
        ensures stops { IfErr result (λ e. e ≡ Stop.NoMemory) }
        ensures grows { Grows symbols.old symbols.new }
    {
        let name = word_at(alloc, bytes, tokens, self.at)?;
        let sym = symbols.intern(alloc, name.as_bytes(), 0)?;
        self.nodes.push(Node::App(sym, 0))?;
        self.places.push(token_at(bytes, tokens, self.at).place)?;
        self.at += 1;
        self.behind_term = true;
        Ok(())
    }

    fn open(&mut self, bytes: &[u8], tokens: &[Token]) -> Result<(), Stop>
        requires tokens { AreTokens bytes.now tokens.now }
        requires begins { self.old.behind_term ≡ false }
        requires head { head_at bytes.now tokens.now self.old.at ≡ head.Functor }
        requires opens { terminal_at bytes.now tokens.now (self.old.at + 1) ≡ terminal.Open }
        requires room { length self.old.nodes.items < MAX_NODES }
        ensures moves { IfOk result (λ _. (seen table : _) → Moves bytes.now tokens.now (state_of self.old seen table) (state_of self.new seen table)) }
        ensures stops { IfErr result (λ e. e ≡ Stop.NoMemory) }
    {
        let node = self.nodes.len();
        self.nodes.push(Node::App(Sym(0), 0))?;
        self.places.push(token_at(bytes, tokens, self.at).place)?;
        self.pending.push(Pending {
            functor: self.at,
            node,
            number: 1,
        })?;
        self.at += 2;
        Ok(())
    }
}
