use std::alloc::{AllocError, Global};
use std::test::Fail;
use uc_check::{Line, LineSource};
use uc_clause::{Place, What};
use uc_term::{Node, Seq, Symbols, Term, Text};
use uc_tstp::{ProofFault, frame_of, read_lines, read_proof};

const START: &[u8] = b"% SZS output start CNFRefutation for f.p\n";

const END: &[u8] = b"% SZS output end CNFRefutation for f.p\n";

const FRAMED: &[u8] =
    b"% a comment\n% SZS output start CNFRefutation for r1.p\ncnf(p0)\n% SZS output end CNFRefutation for r1.p\n";

const LINES: &[u8] = b"cnf(p1, axiom, f(a) = b, file('f.p', ax)).
cnf(p2, negated_conjecture, f(a) != b, file('f.p', 7)).
cnf(p3, plain, f(X) = b, inference(chain, [f(X), step(p1, lr, [1,2], g(Y,X)), step(p2, rl, [], b)], [p1, p2])).
cnf(p4, plain, $false, inference(refute, [], [p2, p3])).
";

// A text in which these lines stand between a start line and an end line, from its third line on.
fn framed(alloc: Global, lines: &[u8]) -> Result<Text, AllocError> {
    let mut text = Text::from_bytes(alloc, b"% Proved:\n")?;
    text.extend(START)?;
    text.extend(lines)?;
    text.extend(END)?;
    Ok(text)
}

// Why lines aren't read, if they aren't.
fn fault_in(alloc: Global, lines: &[u8]) -> Result<Option<ProofFault>, AllocError> {
    let text = framed(alloc, lines)?;
    let mut symbols = Symbols::new(alloc);
    match read_proof(alloc, text.as_bytes(), &mut symbols) {
        Ok(_) => Ok(None),
        Err(ProofFault::NoMemory) => Err(AllocError),
        Err(fault) => Ok(Some(fault)),
    }
}

// The lines of the proof.
fn lines_of(alloc: Global) -> Result<Seq<Line>, ProofFault> {
    let text = framed(alloc, LINES)?;
    let mut symbols = Symbols::new(alloc);
    let proof = read_proof(alloc, text.as_bytes(), &mut symbols)?;
    Ok(proof.lines)
}

// A step of a chain: the line that it names, its way, and how long its path is.
fn step_at(source: &LineSource, at: usize) -> Option<(u32, bool, usize)> {
    let LineSource::Chain {
        start: _,
        steps,
        parents: _,
    } = source
    else {
        return None;
    };
    let steps = steps.as_slice();
    if at >= steps.len() {
        return None;
    }
    Some((steps[at].by, steps[at].left_to_right, steps[at].path.len()))
}

// How many parents a source has, and the last of them.
fn parents_of(source: &LineSource) -> (usize, Option<u32>) {
    let parents = match source {
        LineSource::File(_) => return (0, None),
        LineSource::Chain {
            start: _,
            steps: _,
            parents,
        } => parents,
        LineSource::Reflexive { parents } => parents,
        LineSource::EncodeGoal { parents } => parents,
        LineSource::Refute { parents } => parents,
    };
    (parents.len(), parents.as_slice().last().copied())
}

// Lines with the numbers of the lines that they name.
#[test]
fn lines_of_a_proof(rt: HostRuntime) -> Result<(), Fail> {
    let lines = lines_of(rt.alloc())?;
    assert!(rt; name_lines(lines.as_slice()));
    Ok(())
}

fn name_lines(lines: &[Line]) -> bool {
    match lines {
        [_, _, chain, refutation] => {
            step_at(&chain.source, 0) == Some((0, true, 2))
                && step_at(&chain.source, 1) == Some((1, false, 0))
                && parents_of(&chain.source) == (2, Some(1))
                && parents_of(&refutation.source) == (2, Some(2))
        }
        _ => false,
    }
}

// The last node of a term.
fn last_node(term: &Term) -> Option<Node> {
    term.as_nodes().last().copied()
}

// What the lines say: a refutation is positive, with the same variable on both sides.
#[test]
fn sides_of_lines(rt: HostRuntime) -> Result<(), Fail> {
    let lines = lines_of(rt.alloc())?;
    assert!(rt; have_sides(lines.as_slice()));
    Ok(())
}

fn have_sides(lines: &[Line]) -> bool {
    match lines {
        [axiom, goal, chain, refutation] => {
            axiom.positive
                && !goal.positive
                && refutation.positive
                && last_node(&chain.left) == Some(Node::Var(0))
                && last_node(&refutation.left) == Some(Node::Var(0))
                && last_node(&refutation.right) == Some(Node::Var(0))
        }
        _ => false,
    }
}

// The lines between the first start line and the end line behind it, and why there are none.
#[test]
fn frames(rt: HostRuntime) -> Result<(), Fail> {
    let frame = frame_of(FRAMED)?;
    assert!(rt; &FRAMED[frame.from..frame.to] == b"cnf(p0)\n".as_slice());
    for (text, wanted) in UNFRAMED {
        assert!(rt; frame_of(text) == Err(*wanted));
    }
    Ok(())
}

const UNFRAMED: &[(&[u8], ProofFault)] = &[
    (
        b"cnf(p0)\n",
        ProofFault::Syntax(Place { line: 2, column: 1 }),
    ),
    (START, ProofFault::Truncated),
    (
        b"% SZS output start CNFRefutation for r1.p\n% SZS output end CNFRefutation for r2.p\n",
        ProofFault::Syntax(Place { line: 2, column: 1 }),
    ),
];

// Lines, and why they aren't read, with the place in the whole text.
const REFUSED: &[(&[u8], Option<ProofFault>)] = &[
    (b"", None),
    (b"cnf(p, axiom, a = b, file(f, x)).\n", None),
    (
        b"cnf(\"\n",
        Some(ProofFault::Syntax(Place { line: 3, column: 5 })),
    ),
    (
        b"cnf(p, axiom, a = b, file(f, x))\n",
        Some(ProofFault::Syntax(Place { line: 4, column: 1 })),
    ),
    (
        b"cnf(p, axiom, a = b, inference(refute, [], [])).\n",
        Some(ProofFault::Syntax(Place {
            line: 3,
            column: 15,
        })),
    ),
    (
        b"cnf(p, axiom, a = b, inference(chains, [a], [])).\n",
        Some(ProofFault::UnknownRule(Place {
            line: 3,
            column: 32,
        })),
    ),
    (
        b"cnf(p, plain, a = a, inference(chain, [a, step(q, lr, [], a)], [p, r])).\n",
        Some(ProofFault::UnknownName(Place {
            line: 3,
            column: 48,
        })),
    ),
    (
        b"cnf(p, plain, a = a, inference(chain, [a], [p, q])).\ncnf(p, axiom, a = b, file(f, x)).\n",
        Some(ProofFault::RepeatedName(Place { line: 4, column: 5 })),
    ),
    (
        b"cnf(p, plain, a = a, inference(chain, [a], [q])).\ncnf(q, plain, a = a, inference(chain, [a], [p])).\n",
        None,
    ),
    (
        b"cnf(p, plain, $false, inference(refute, [], [p, Q])).\n",
        Some(ProofFault::Syntax(Place {
            line: 3,
            column: 49,
        })),
    ),
];

#[test]
fn lines_refused(rt: HostRuntime) -> Result<(), Fail> {
    for (lines, wanted) in REFUSED {
        assert!(rt; fault_in(rt.alloc(), lines)? == *wanted);
    }
    Ok(())
}

// The first functor whose 256th argument a comma announces.
#[test]
fn too_many_arguments(rt: HostRuntime) -> Result<(), Fail> {
    let lines = line_of_arguments(rt.alloc())?;
    assert!(rt; fault_in(rt.alloc(), lines.as_bytes())? == TOO_MANY);
    Ok(())
}

const TOO_MANY: Option<ProofFault> = Some(ProofFault::Limit(
    What::Arity,
    Place {
        line: 3,
        column: 19,
    },
));

fn line_of_arguments(alloc: Global) -> Result<Text, AllocError> {
    let mut lines = Text::from_bytes(alloc, b"cnf(p, axiom, a = f(a")?;
    for _ in 0..255 {
        lines.extend(b",a")?;
    }
    lines.extend(b"), file(f, x)).\n")?;
    Ok(lines)
}

// A text without an end line.
#[test]
fn cut_off(rt: HostRuntime) -> Result<(), Fail> {
    let mut text = Text::from_bytes(rt.alloc(), START)?;
    text.extend(LINES)?;
    assert!(rt; is_truncated(rt.alloc(), text.as_bytes()));
    Ok(())
}

fn is_truncated(alloc: Global, text: &[u8]) -> bool {
    let mut symbols = Symbols::new(alloc);
    matches!(
        read_proof(alloc, text, &mut symbols),
        Err(ProofFault::Truncated)
    )
}

// Why lines without a frame aren't read, if they aren't.
fn fault_alone(alloc: Global, lines: &[u8]) -> Result<Option<ProofFault>, AllocError> {
    let mut symbols = Symbols::new(alloc);
    match read_lines(alloc, lines, &mut symbols) {
        Ok(_) => Ok(None),
        Err(ProofFault::NoMemory) => Err(AllocError),
        Err(fault) => Ok(Some(fault)),
    }
}

// Lines without a frame; the end of the text counts as a last token.
const ALONE: &[(&[u8], Option<ProofFault>)] = &[
    (b"", None),
    (LINES, None),
    (
        b"cnf(p, axiom, a = b, file(f, x))\n",
        Some(ProofFault::Syntax(Place { line: 2, column: 1 })),
    ),
    (
        b"\ncnf(\"\n",
        Some(ProofFault::Syntax(Place { line: 2, column: 5 })),
    ),
    (
        b"cnf(p, plain, $false, inference(refute, [], [q])).",
        Some(ProofFault::UnknownName(Place {
            line: 1,
            column: 46,
        })),
    ),
    (
        b"cnf(r,plain,$false , inference ( goal",
        Some(ProofFault::UnknownRule(Place {
            line: 1,
            column: 34,
        })),
    ),
];

#[test]
fn lines_alone(rt: HostRuntime) -> Result<(), Fail> {
    for (lines, wanted) in ALONE {
        assert!(rt; fault_alone(rt.alloc(), lines)? == *wanted);
    }
    Ok(())
}

// Bodies with their sources, behind two lines that these may name.
const SOURCES: &[&str] = &[
    "a = b , file ( 'r' , +1 )",
    "X != b , file ( r , 'c' )",
    "a = b , inference ( encode , [ goal ] , [ ] )",
    "a = b , inference ( encode , [ reflexive ] , [ p , q ] )",
    "$false , inference ( refute , [ ] , [ p ] )",
    "X = b , inference ( chain , [ X ] , [ p ] )",
    "X = b , inference ( chain , [ X , step ( q , lr , [ 1 , 2 ] , b ) , step ( q , rl , [ ] , b ) ] , [ p , q ] )",
];

const BEFORE: &[u8] = b"cnf(p,axiom,a=b,file(f,x)). cnf(q,axiom,a=b,file(f,x)). cnf(r,plain,";

// Why lines of these pieces aren't read, if they aren't.
fn fault_of(
    alloc: Global,
    before: &[u8],
    said: &str,
    behind: &[u8],
) -> Result<Option<ProofFault>, AllocError> {
    let mut lines = Text::from_bytes(alloc, before)?;
    lines.extend(said.as_bytes())?;
    lines.extend(behind)?;
    fault_alone(alloc, lines.as_bytes())
}

#[test]
fn sources(rt: HostRuntime) -> Result<(), Fail> {
    for said in SOURCES {
        assert!(rt;
            fault_of(rt.alloc(), BEFORE, said, b").")?.is_none(),
            "{said}"
        );
    }
    Ok(())
}

// The column of the first line at which a body and its source stop: the body is judged where the kind of the source is known.
const REFUSED_SOURCES: &[(&str, u32)] = &[
    ("$false , file", 13),
    ("a != b , inference ( chain", 13),
    ("a = b , inference ( refute )", 13),
    ("$false , inference ( encode", 13),
    ("$false , inference ( 'chain'", 34),
    ("a = b , inference chain", 31),
    ("a = b , file ( 'r' , c", 35),
    ("a = b , inference ( chain , [ a , step ( q , lr , [ 0", 65),
    ("a = b , inference ( chain , [ a , step ( q , up", 58),
    ("a = b , inference ( chain , [ ]", 43),
    ("a = b , inference ( chain , [ a , ]", 47),
    ("a b", 15),
];

#[test]
fn sources_refused(rt: HostRuntime) -> Result<(), Fail> {
    for (said, column) in REFUSED_SOURCES {
        assert!(rt; stops_at(rt.alloc(), said, *column)?, "{said}");
    }
    Ok(())
}

fn stops_at(alloc: Global, said: &str, column: u32) -> Result<bool, AllocError> {
    let fault = fault_of(alloc, b"cnf(r,plain,", said, b"")?;
    Ok(fault == Some(ProofFault::Syntax(Place { line: 1, column })))
}
